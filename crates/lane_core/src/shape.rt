ghost use Rattle.std.specs.Prelude.{◌≡◌};
ghost use Rattle.arena_layout.specs.Layout.{IsLayout};
ghost use Rattle.lane_core.specs.Places.{shape_of, IsShape};

use arena_layout::Layout;

/// The places of an arena's words, counted in words from its first one.
#[derive(Clone, Copy, Debug, PartialEq, Eq)]
pub struct Shape {
    /// Words of a sector.
    pub width: u32,
    pub sectors: u32,
    pub lanes: u32,
    /// Words of a block.
    pub inner: u64,
    /// The first block.
    pub data_at: u64,
    /// The map, half a word a sector.
    pub map_at: u64,
    /// The log, eight words a lane.
    pub log_at: u64,
    /// Words of the arena.
    pub total: u64,
}

impl Shape {
    /// The shape of an arena of a layout.
    pub fn of(layout: &Layout) -> Shape
        requires layout { IsLayout layout.now }
        ensures value { result ≡ shape_of layout.now }
        ensures shape { IsShape (shape_of layout.now) }
    {
        Shape {
            width: layout.sector / 8,
            sectors: layout.external,
            lanes: layout.lanes,
            inner: u64::from(layout.inner) / 8,
            data_at: layout.data_off / 8,
            map_at: layout.map_off / 8,
            log_at: layout.flog_off / 8,
            total: layout.size / 8,
        }
    }
}
