//! An arena on words that its lanes share.
ghost use Rattle.std.specs.Prelude.{◌≡◌, ◌<◌};
ghost use Rattle.lane_core.specs.Places.{row_size, IsShape};

use crate::table::WordTable;
use lane_core::Shape;

/// The words of an arena. Lanes step on them by reference, from any thread.
#[derive(Drop)]
pub struct Arena {
    pub(crate) table: WordTable,
    pub(crate) shape: Shape,
    ghost shape_is: { table.shared.key.shape ≡ shape },
    ghost is_shape: { IsShape shape },
    ghost some: { (0 < shape.lanes) × (0 < shape.width) },
    ghost size: { table.shared.table_id.words ≡ row_size shape },
    ghost no_slots: { table.shared.table_id.slots ≡ 0 },
}
