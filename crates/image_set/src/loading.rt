//! Loading an image set: first all sizes, then the bytes.
ghost use Rattle.std.specs.Prelude.{◌≡◌, ◌≢◌, ◌≤◌, ◌<◌, ◌^◌, [], ◌∷◌, length, map, IfOk, Err};
ghost use Rattle.std.specs.Option.{ForSome};
ghost use Rattle.std.specs.Result.{result_map_both};
ghost use Rattle.std.specs.List.{All, range_with_len};
ghost use Rattle.nvd_words.specs.Checks.{Answers, first_fault, value_unless};
ghost use Rattle.nvd_media.specs.Causes.{LeavesSource, Rose};
ghost use Rattle.nfit_reader.specs.Table.{nfit_reading};
ghost use Rattle.nfit_reader.specs.Counted.{AreCounted, NamesItsModules};
ghost use Rattle.image_set.specs.Known.{IsChecked};
ghost use Rattle.image_set.specs.Load.{AnswersRead, Loads, image_set_in, image_set_of, modules_fault, mappings_fault};
ghost use Rattle.image_set.specs.Sizes.{sizes_of, contents_of, AreSized};
ghost use Rattle.image_set.specs.Sound.{AreMapped, IsSound};

use crate::fault::{LoadFault, Stop};
use crate::mapped::mappings_fault;
use crate::pieces::{piece_room, read_bytes};
use crate::reading::{contents_sizes, read_areas, read_bad, read_contents};
use crate::sizes::{Sizes, modules_sizes, table_size};
use cut_words::CutWords;
use nfit_reader::{Nfit, NfitFault, read_nfit};
use nvd_media::{ImageSource, Object};
use nvd_words::Items;
use std::alloc::Global;

/// An image set in memory. Lists are indexed by the number of the module in the firmware's table;
/// contracts see the words of an object as `Words` of cut_words.
#[derive(Debug, Drop)]
pub struct Loaded {
    /// The decoded firmware table.
    pub nfit: Nfit,
    /// The bytes of the table's object, including those past its Length.
    pub nfit_bytes: Items<u8>,
    /// The label area of each module that has one, from its byte 0, the low byte of each word first.
    pub labels: Items<Option<CutWords>>,
    /// The contents of each module, from its device address 0, the low byte of each word first.
    pub contents: Items<CutWords>,
    /// The bytes of each module's list of bad ranges, if it has one. They aren't decoded.
    pub bad: Items<Option<Items<u8>>>,
}

/// Reads the firmware's table.
pub(crate) fn table_of(alloc: Global, bytes: &[u8]) -> Result<Nfit, LoadFault>
    ensures reading { Answers LoadFault.OutOfMemory result (result_map_both (λ nfit. nfit)
        LoadFault.Nfit (nfit_reading bytes.now)) }
    ensures apart { result ≢ Err (LoadFault.Nfit NfitFault.OutOfMemory) }
    ensures no_read { result ≢ Err LoadFault.ReadFault }
    ensures counted { IfOk result AreCounted }
    ensures few { IfOk result (λ nfit. length nfit.regions < 2 ^ 32) }
    ensures modules { IfOk result NamesItsModules }
{
    match read_nfit(alloc, bytes) {
        Ok(nfit) => Ok(nfit),
        Err(NfitFault::OutOfMemory) => Err(LoadFault::OutOfMemory),
        Err(fault) => Err(LoadFault::Nfit(fault)),
    }
}

/// Returns the sizes of all modules' objects, after checking that all mappings fit.
pub(crate) fn checked_sizes<S: ImageSource>(
    alloc: Global,
    images: &mut S,
    nfit: &Nfit,
) -> Result<Items<Sizes>, LoadFault>
    requires { NamesItsModules nfit.now }
    ensures told { ForSome (S.held images.old) (λ set. AnswersRead result
        (value_unless (map (sizes_of set) (range_with_len 0 (length nfit.now.modules)))
        (first_fault (modules_fault set (length nfit.now.modules)
        ∷ mappings_fault set nfit.now.regions ∷ [])))) }
    ensures sized { IfOk result AreSized }
    ensures count { IfOk result (λ sizes. length sizes ≡ length nfit.now.modules) }
    ensures mapped { IfOk result (λ sizes. All (AreMapped (contents_of sizes)) nfit.now.regions) }
    ensures apart { result ≢ Err (LoadFault.Nfit NfitFault.OutOfMemory) }
    ensures source { LeavesSource (S.held images.old) (S.held images.new)
        (S.faults images.old) (S.faults images.new) result LoadFault.ReadFault }
{
    let sizes = modules_sizes(alloc, images, nfit.modules.len() as u32)?;
    match mappings_fault(nfit.regions.as_slice(), sizes.as_slice()) {
        Some(fault) => Err(fault),
        None => Ok(sizes),
    }
}

/// Reads the bytes of all modules of a table.
fn read_set<S: ImageSource>(
    alloc: Global,
    images: &mut S,
    nfit: Nfit,
    nfit_bytes: Vec<u8>,
    sizes: &[Sizes],
) -> Result<Loaded, Stop>
    requires checked { IsChecked (S.held images.old) nfit nfit_bytes.items sizes.now }
    requires mapped { All (AreMapped (contents_of sizes.now)) nfit.regions }
    ensures told { ForSome (S.held images.old)
        (λ set. IfOk result (λ loaded. image_set_in loaded ≡ image_set_of set nfit)) }
    ensures sound { IfOk result IsSound }
    ensures source { LeavesSource (S.held images.old) (S.held images.new)
        (S.faults images.old) (S.faults images.new) result Stop.ReadFault }
{
    let of_contents = contents_sizes(alloc, sizes)?;
    let mut room = piece_room(alloc)?;
    let labels = read_areas(alloc, images, sizes, &mut room)?;
    let contents = read_contents(alloc, images, of_contents.as_slice(), &mut room)?;
    let bad = read_bad(alloc, images, sizes)?;
    Ok(Loaded {
        nfit,
        nfit_bytes: Items::from_vec(nfit_bytes),
        labels,
        contents,
        bad,
    })
}

/// Loads an image set: its table, and the objects of the modules that the table names.
///
/// - `told`: if the source reveals what it holds, the result is that of `loading`: the set with the
///   bytes of the source's objects, or the first fault. `Missing` means that the mark, the table or
///   a module's contents are missing; `Size` that an object's length is outside its limits, or that
///   contents end before one of their mappings does; `Nfit` that the table is refused.
/// - `failed`: `ReadFault` means that the source's count of failures rose in this call.
/// - `OutOfMemory` may replace any other result. No other fault contains it (`apart`).
/// - `sound`: the loaded set is within its limits and consistent, whatever the source reveals.
/// - `same`, `later`: the source holds what it held, and its count of failures never falls.
pub fn load<S: ImageSource>(alloc: Global, images: &mut S) -> Result<Loaded, LoadFault>
    ensures told { ForSome (S.held images.old) (Loads result) }
    ensures sound { IfOk result IsSound }
    ensures apart { result ≢ Err (LoadFault.Nfit NfitFault.OutOfMemory) }
    ensures failed { result ≡ Err LoadFault.ReadFault
        → Rose (S.faults images.old) (S.faults images.new) }
    ensures later { S.faults images.old ≤ S.faults images.new }
    ensures same { S.held images.new ≡ S.held images.old }
{
    let bytes = table_size(images)?;
    let nfit_bytes = read_bytes(alloc, images, Object::Nfit, bytes)?;
    let nfit = table_of(alloc, &nfit_bytes)?;
    let sizes = checked_sizes(alloc, images, &nfit)?;
    Ok(read_set(alloc, images, nfit, nfit_bytes, sizes.as_slice())?)
}
