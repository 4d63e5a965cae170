/// The words of an arena in which no lane steps any more.
#[derive(Drop)]
pub struct ArenaWords {
    /// As a load returns them.
    pub seen: Vec<u64>,
    /// As they are kept, as many.
    pub kept: Vec<u64>,
}
