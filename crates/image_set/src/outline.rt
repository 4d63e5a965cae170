//! An image set loaded without its contents, which stay in the source until they are copied.
ghost use Rattle.std.specs.Prelude.{◌≡◌, ◌≢◌, ◌≤◌, length, IfOk, Err};
ghost use Rattle.std.specs.Option.{ForSome};
ghost use Rattle.std.specs.List.{All};
ghost use Rattle.nvd_media.specs.Causes.{LeavesSource, Rose};
ghost use Rattle.image_set.specs.Known.{IsChecked};
ghost use Rattle.image_set.specs.Load.{image_set_of};
ghost use Rattle.image_set.specs.Outline.{HasContents, IsLoadable, IsOutlined, Outlines, contents_in, image_set_with};
ghost use Rattle.image_set.specs.Sizes.{contents_of};
ghost use Rattle.image_set.specs.Sound.{AreMapped};

use crate::fault::{LoadFault, Stop};
use crate::loading::{checked_sizes, table_of};
use crate::pieces::{piece_room, read_bytes};
use crate::reading::{contents_sizes, read_areas, read_bad};
use crate::sizes::{Sizes, table_size};
use cut_words::CutWords;
use nfit_reader::{Nfit, NfitFault};
use nvd_media::{ImageSource, Object};
use nvd_words::Items;
use std::alloc::Global;

/// An image set in memory without its contents, but with their sizes. Lists are indexed by the
/// number of the module in the firmware's table.
#[derive(Debug, Drop)]
pub struct Outline {
    /// The decoded firmware table.
    pub nfit: Nfit,
    /// The bytes of the table's object, including those past its Length.
    pub nfit_bytes: Items<u8>,
    /// The label area of each module that has one, from its byte 0, the low byte of each word first.
    pub labels: Items<Option<CutWords>>,
    /// The size of each module's contents, in bytes.
    pub sizes: Items<u64>,
    /// The bytes of each module's list of bad ranges, if it has one. They aren't decoded.
    pub bad: Items<Option<Items<u8>>>,
}

/// Reads the bytes of all modules of a table, except their contents.
fn read_outline<S: ImageSource>(
    alloc: Global,
    images: &mut S,
    nfit: Nfit,
    nfit_bytes: Vec<u8>,
    sizes: &[Sizes],
) -> Result<Outline, Stop>
    requires checked { IsChecked (S.held images.old) nfit nfit_bytes.items sizes.now }
    requires mapped { All (AreMapped (contents_of sizes.now)) nfit.regions }
    ensures told { ForSome (S.held images.old)
        (λ set. IfOk result (λ outline. image_set_with outline (contents_in set (length outline.sizes)) ≡ image_set_of set nfit)) }
    ensures sizes { ForSome (S.held images.old) (λ set. IfOk result (λ outline. HasContents outline.sizes set)) }
    ensures sound { IfOk result IsOutlined }
    ensures loadable { IfOk result IsLoadable }
    ensures source { LeavesSource (S.held images.old) (S.held images.new)
        (S.faults images.old) (S.faults images.new) result Stop.ReadFault }
{
    let mut room = piece_room(alloc)?;
    let of_contents = contents_sizes(alloc, sizes)?;
    let labels = read_areas(alloc, images, sizes, &mut room)?;
    let bad = read_bad(alloc, images, sizes)?;
    Ok(Outline {
        nfit,
        nfit_bytes: Items::from_vec(nfit_bytes),
        labels,
        sizes: of_contents,
        bad,
    })
}

/// Loads an image set without its contents. It checks their sizes; [`crate::OutlineLeft::save`]
/// reads their bytes later, when it copies them.
///
/// - `told`: if the source reveals what it holds, the result is that of `loading`: with the
///   source's contents the outline is the set that `load` returns, and its faults are the same.
/// - `sizes`: the contents have the sizes in the outline.
/// - `failed`: `ReadFault` means that the source's count of failures rose in this call.
/// - `OutOfMemory` may replace any other result. No other fault contains it (`apart`).
/// - `sound`: the outline is within its limits and consistent, whatever the source reveals.
/// - `loadable`: the sizes are within their limits, and the contents hold the mappings.
/// - `same`, `later`: the source holds what it held, and its count of failures never falls.
pub fn load_outline<S: ImageSource>(alloc: Global, images: &mut S) -> Result<Outline, LoadFault>
    ensures told { ForSome (S.held images.old) (Outlines result) }
    ensures sizes { ForSome (S.held images.old) (λ set. IfOk result (λ outline. HasContents outline.sizes set)) }
    ensures sound { IfOk result IsOutlined }
    ensures loadable { IfOk result IsLoadable }
    ensures apart { result ≢ Err (LoadFault.Nfit NfitFault.OutOfMemory) }
    ensures failed { result ≡ Err LoadFault.ReadFault
        → Rose (S.faults images.old) (S.faults images.new) }
    ensures later { S.faults images.old ≤ S.faults images.new }
    ensures same { S.held images.new ≡ S.held images.old }
{
    let bytes = table_size(images)?;
    let nfit_bytes = read_bytes(alloc, images, Object::Nfit, bytes)?;
    let nfit = table_of(alloc, &nfit_bytes)?;
    let sizes = checked_sizes(alloc, images, &nfit)?;
    Ok(read_outline(alloc, images, nfit, nfit_bytes, sizes.as_slice())?)
}
