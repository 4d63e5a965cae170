use arena_open::ArenaState;
use session_parts::CorePart;

/// What a session knows of an arena. Contracts alone use it, and no code makes a value of it.
pub struct ArenaPart {
    /// The arena as it was opened.
    pub first: ArenaState,
    /// Its own entries there, and its write that is in flight, if there is one.
    pub mine: CorePart,
    /// The steps that lanes made in its calls there.
    pub steps: u64,
}
