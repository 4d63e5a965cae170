/// Names a call of a session in logs, such as an arena's history.
#[derive(Clone, Copy, Debug, PartialEq, Eq)]
pub struct Tag {
    /// The session's number.
    pub session: u32,
    /// The number of the call in its session, counted from 0.
    pub call: u32,
}
