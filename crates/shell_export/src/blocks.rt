//! The bytes of one sector, read from the source.
ghost use Rattle.std.specs.Prelude.{◌≡◌, ℕ, ◌+◌, ◌*◌, ◌/◌, ◌^◌, ◌<◌, ◌≤◌, List, OnOk, length, drop, replicate};
ghost use Rattle.nvd_media.specs.Causes.{HasCause};
ghost use Rattle.arena_layout.specs.Layout.{IsLayout};
ghost use Rattle.arena_open.specs.Places.{block_words};
ghost use Rattle.arena_open.specs.Reading.{cell_with};
ghost use Rattle.cut_words.specs.WordBytes.{bytes_of};
ghost use Rattle.namespace_words.specs.Source.{HasEnds, Reveals, words_by};
ghost use Rattle.power_cut.specs.Namespace.{raw_bytes};
ghost use Rattle.shell_export.specs.Export.{cell_words};

use arena_layout::Layout;
use map_table::{Kind, MapEntry};
use namespace_words::read_extent;
use nvd_media::{Failed, ImageSource};
use power_cut::SetExtent;

/// Where an arena lies in its namespace.
#[derive(Clone, Copy, Debug)]
pub struct ArenaPlace {
    /// The number of its first word in the namespace.
    pub at: u64,
    pub layout: Layout,
}

/// Fills the room for a sector with zeros.
fn no_bytes(into: &mut [u8])
    ensures { into.new ≡ replicate (length into.old) 0 }
{
    into.fill(0);
}

/// Reads the bytes of a sector from a block of an arena.
fn read_block<S: ImageSource>(
    images: &mut S,
    extent: &SetExtent<'_>,
    place: &ArenaPlace,
    block: u32,
    into: &mut [u8],
) -> Result<(), Failed>
    requires layout { IsLayout place.now.layout }
    requires few { 8 * place.now.at ≤ 2 ^ 55 }
    requires within { 8 * place.now.at + place.now.layout.size ≤ raw_bytes extent.now }
    requires block { block < place.now.layout.internal }
    requires room { length into.old ≡ place.now.layout.sector }
    requires there { HasEnds (S.held images.old) extent.now.set }
    ensures told { (contents : List (List ℕ)) → Reveals (S.held images.old) extent.now.set contents → OnOk result (into.new ≡ bytes_of (block_words place.now.layout (drop place.now.at (words_by extent.now contents)) block (place.now.layout.sector / 8))) }
    ensures room { length into.new ≡ place.now.layout.sector }
    ensures same { S.held images.new ≡ S.held images.old }
    ensures cause { HasCause (S.faults images.old) (S.faults images.new) result }
{
    let layout = &place.layout;
    let offset = u64::from(block) * u64::from(layout.inner);
    read_extent(
        images,
        extent,
        8 * place.at + layout.data_off + offset,
        into,
    )
}

/// Reads the bytes of the sector of an entry of an arena's map. A zero or bad entry needs no block: its bytes are zeros, and
/// nothing is read for it. After `Failed` the room may hold any bytes.
pub(crate) fn read_entry<S: ImageSource>(
    images: &mut S,
    extent: &SetExtent<'_>,
    place: &ArenaPlace,
    entry: MapEntry,
    into: &mut [u8],
) -> Result<(), Failed>
    requires layout { IsLayout place.now.layout }
    requires few { 8 * place.now.at ≤ 2 ^ 55 }
    requires within { 8 * place.now.at + place.now.layout.size ≤ raw_bytes extent.now }
    requires block { entry.block < place.now.layout.internal }
    requires room { length into.old ≡ place.now.layout.sector }
    requires there { HasEnds (S.held images.old) extent.now.set }
    ensures told { (contents : List (List ℕ)) → Reveals (S.held images.old) extent.now.set contents → OnOk result (into.new ≡ bytes_of (cell_words (place.now.layout.sector / 8) (cell_with place.now.layout (drop place.now.at (words_by extent.now contents)) entry))) }
    ensures room { length into.new ≡ place.now.layout.sector }
    ensures same { S.held images.new ≡ S.held images.old }
    ensures cause { HasCause (S.faults images.old) (S.faults images.new) result }
{
    match entry.kind {
        Kind::Zero => {
            no_bytes(into);
            Ok(())
        }
        Kind::Bad => {
            no_bytes(into);
            Ok(())
        }
        Kind::Initial => read_block(images, extent, place, entry.block, into),
        Kind::Normal => read_block(images, extent, place, entry.block, into),
    }
}
