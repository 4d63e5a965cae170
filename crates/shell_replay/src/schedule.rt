use session_script::ReplayLines;

/// What `replay` is asked: a schedule of lanes, and the power cut at its end.
#[derive(Debug, Drop)]
pub struct Schedule {
    /// The lines of the schedule, in order.
    pub lines: ReplayLines,
    /// The number from which the chooser of the power cut begins.
    pub seed: u64,
}
