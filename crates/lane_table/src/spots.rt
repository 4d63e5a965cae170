//! The words of a commit.
ghost use Rattle.std.specs.Prelude.{◌≡◌, ◌<◌};
ghost use Rattle.atomic_table.specs.Seated.{TableId};
ghost use Rattle.lane_core.specs.Places.{row_size, IsShape};
ghost use Rattle.lane_table.specs.Committed.{AreCommitWords};

use crate::committing::CommitWords;
use crate::pieces::Mine;
use crate::words::{kept, lock_word, log_word, map_word};
use lane_core::Shape;

/// The words of a lane's commit to a sector.
pub fn commit_words(shape: &Shape, mine: Mine, sector: u32) -> CommitWords
    requires shape { IsShape shape.now }
    requires lane { mine.number < shape.now.lanes }
    requires side { mine.side < 2 }
    requires sector { sector < shape.now.sectors }
    ensures { (id : TableId) → id.words ≡ row_size shape.now → AreCommitWords id shape.now mine.number mine.side sector result }
{
    let map = map_word(shape, sector);
    let log_a = log_word(shape, mine.number, 1 - mine.side);
    CommitWords {
        lock: lock_word(shape, sector),
        map,
        kept_map: kept(shape, map),
        log_a,
        kept_log_a: kept(shape, log_a),
        log_b: log_a + 1,
        kept_log_b: kept(shape, log_a + 1),
    }
}
