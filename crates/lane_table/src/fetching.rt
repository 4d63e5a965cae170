//! Brings lines of cache before the steps that need them.
ghost use Rattle.std.specs.Prelude.{◌+◌, ◌<◌, ◌≤◌, ◌^◌};

use crate::table::Words;

/// Loads one of each eight of these words, so that their lines of cache come all at once. Steps
/// alone ask for a few at a time: a store waits for its line before the next one begins. It is no
/// step: it tells nothing.
pub fn fetch(table: &Words, at: usize, count: usize)
    requires { (at + count ≤ table.now.table_id.words) × (table.now.table_id.words < 2 ^ 60) }
{
    for line in 0..count / 8 {
        table.peek(at + 8 * line);
    }
}
