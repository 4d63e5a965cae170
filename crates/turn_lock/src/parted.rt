//! What a value behind the lock is.
ghost use Rattle.std.specs.Prelude.{ℕ};

/// A value that has a part for each caller's number.
///
/// The part is plain data, in contracts alone: a number, a struct, a `LinkedList`. It never exists
/// at run time. Only the caller's own turns may change it, so what all callers share (a total, the
/// current value) belongs in the value and not in a part.
pub trait Parted {
    /// What a caller knows of the value.
    type Part;

    ghost part: { Self → ℕ → Self.Part };
}
