//! A law about schedules: a function that does nothing, and ensures the law.
ghost use Rattle.lane_replay.specs.Asking.{ReplaysStand};

/// A law: every schedule of every opened arena stands. The core holds what the list of its calls
/// and steps leads to. Their history is legal and has each answer once, and after every power cut
/// the words open again.
pub fn replays_stand()
    ensures { ReplaysStand }
{}
