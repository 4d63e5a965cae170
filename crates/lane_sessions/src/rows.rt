//! Rows that grow by one place at once.
ghost use Rattle.std.specs.Prelude.{◌≡◌, length, OnOk};
ghost use Rattle.lane_sessions.specs.Rows.{Gain};

use std::alloc::AllocError;

/// Adds each item to the row at its place.
pub(crate) fn push_each<T: Drop>(
    rows: &mut Vec<Vec<T>>,
    mut items: Vec<T>,
) -> Result<(), AllocError>
    requires { length items.items ≡ length rows.old.items }
    ensures { OnOk result (Gain rows.old.items items.items rows.new.items) }
{
    while let Some(item) = items.pop() {
        let at = items.len();
        rows[at].push(item)?;
    }
    Ok(())
}
