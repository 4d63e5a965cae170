use arena_open::Cell;
use namespace_map::OpRefused;

/// What a session is answered.
#[derive(Debug, Drop)]
pub enum Reply {
    /// A write stands, or an order was done.
    Done,
    /// What a read found in its sector.
    Value(Cell),
    /// The namespace has only so many sectors.
    Range { count: u64 },
    /// The value has `said` bytes, and a sector `had`.
    Length { said: u64, had: u64 },
    /// No namespace is open.
    NotOpen,
    /// One is open already.
    IsOpen,
    /// The registry refused an order.
    Op(OpRefused),
    /// Power was cut.
    Cut,
}
