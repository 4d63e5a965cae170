ghost use Rattle.std.specs.Prelude.{◌≡◌, ◌+◌, ◌<◌, ◌≤◌};
ghost use Rattle.flog.specs.Group.{place_of};
ghost use Rattle.arena_open.specs.Halves.{HalvesApart};
ghost use Rattle.arena_open.specs.Moves.{moves_made};

use crate::opened::LaneState;
use arena_layout::Info;
use nvd_words::Items;

/// An opened arena: its words and its lanes, in memory, without pending moves.
#[derive(Debug, Drop)]
pub struct ArenaState {
    pub info: Info,
    /// All words of the arena, from its info block to the end of its backup.
    pub words: Items<u64>,
    pub lanes: Items<LaneState>,
    made: u32,
}

impl ArenaState {
    pub(crate) fn new(
        info: Info,
        words: Items<u64>,
        lanes: Items<LaneState>,
        made: u32,
    ) -> ArenaState
        ensures { result ≡ record { info = info; words = words; lanes = lanes; made = made } }
    {
        ArenaState {
            info,
            words,
            lanes,
            made,
        }
    }

    /// Returns how many pending moves were completed when the arena was opened.
    pub fn moves(&self) -> u32
        ensures { result ≡ moves_made self.now }
    {
        self.made
    }

    /// Returns the first word of a side's half in a lane's group. The side must be 0 or 1.
    ///
    /// Both halves, two words each, lie in the eight words of the group, and don't overlap.
    #[tactic(auto, unfolding(flog::specs::Group::place_of))]
    pub fn half_at(&self, side: u32) -> u64
        requires { side < 2 }
        ensures place { result ≡ place_of side }
        ensures inside { result + 2 ≤ 8 }
        ensures apart { HalvesApart side }
    {
        if side == 0 { 0 } else { 2 }
    }
}
