//! The sizes of the objects of an image set, before any of their bytes are read.
ghost use Rattle.std.specs.Prelude.{◌≡◌, ◌≢◌, ◌+◌, ◌≤◌, ◌<◌, true, ℕ, length, map, sum, IfOk, Err, Some, None, is_none, [], ◌∷◌};
ghost use Rattle.std.specs.Option.{ForSome, option_map};
ghost use Rattle.std.specs.List.{All, range_with_len};
ghost use Rattle.nvd_words.specs.Checks.{first_fault, value_unless};
ghost use Rattle.nvd_media.specs.Causes.{LeavesSource};
ghost use Rattle.nvd_media.specs.Images.{bytes_of};
ghost use Rattle.label_index.specs.Area.{is_area_size, IsAreaSize};
ghost use Rattle.image_set.specs.Limits.{most_contents, is_nfit_size, is_contents_size, is_bad_size};
ghost use Rattle.image_set.specs.Load.{needed_fault, optional_fault, table_fault, module_fault, modules_fault, AnswersRead};
ghost use Rattle.image_set.specs.Sizes.{sizes_of, IsSized, AreSized};

use crate::fault::LoadFault;
use crate::limits::{is_bad_size, is_contents_size, is_nfit_size};
use label_index::is_area_size;
use nfit_reader::NfitFault;
use nvd_media::{ImageSource, Object};
use nvd_words::Items;
use std::alloc::Global;

/// The sizes of a module's objects in bytes; `None` if the object is absent.
#[derive(Clone, Copy, Debug, PartialEq, Eq)]
pub(crate) struct Sizes {
    pub labels: Option<u64>,
    pub contents: u64,
    pub bad: Option<u64>,
}

/// Checks that the mark is there.
fn find_mark<S: ImageSource>(images: &mut S) -> Result<(), LoadFault>
    ensures told { ForSome (S.held images.old) (λ set. AnswersRead result
        (value_unless tt (needed_fault (λ _. true) Object.Mark (set Object.Mark)))) }
    ensures apart { result ≢ Err (LoadFault.Nfit NfitFault.OutOfMemory) }
    ensures source { LeavesSource (S.held images.old) (S.held images.new)
        (S.faults images.old) (S.faults images.new) result LoadFault.ReadFault }
{
    let object = Object::Mark;
    match images.length(object)? {
        Some(_) => Ok(()),
        None => Err(LoadFault::Missing { object }),
    }
}

/// Returns the size of the firmware's table.
fn find_table<S: ImageSource>(images: &mut S) -> Result<u64, LoadFault>
    ensures told { ForSome (S.held images.old) (λ set. AnswersRead result
        (value_unless (length (bytes_of set Object.Nfit))
        (needed_fault is_nfit_size Object.Nfit (set Object.Nfit)))) }
    ensures sized { IfOk result (λ bytes. is_nfit_size bytes ≡ true) }
    ensures apart { result ≢ Err (LoadFault.Nfit NfitFault.OutOfMemory) }
    ensures source { LeavesSource (S.held images.old) (S.held images.new)
        (S.faults images.old) (S.faults images.new) result LoadFault.ReadFault }
{
    let object = Object::Nfit;
    match images.length(object)? {
        None => Err(LoadFault::Missing { object }),
        Some(bytes) if is_nfit_size(bytes) => Ok(bytes),
        Some(bytes) => Err(LoadFault::Size { object, bytes }),
    }
}

/// Returns the size of the firmware's table, after checking the mark.
pub(crate) fn table_size<S: ImageSource>(images: &mut S) -> Result<u64, LoadFault>
    ensures told { ForSome (S.held images.old) (λ set. AnswersRead result
        (value_unless (length (bytes_of set Object.Nfit)) (table_fault set))) }
    ensures sized { IfOk result (λ bytes. is_nfit_size bytes ≡ true) }
    ensures apart { result ≢ Err (LoadFault.Nfit NfitFault.OutOfMemory) }
    ensures source { LeavesSource (S.held images.old) (S.held images.new)
        (S.faults images.old) (S.faults images.new) result LoadFault.ReadFault }
{
    find_mark(images)?;
    find_table(images)
}

/// Returns the size of a module's label area, if it has one.
fn labels_size<S: ImageSource>(images: &mut S, module: u32) -> Result<Option<u64>, LoadFault>
    ensures told { ForSome (S.held images.old) (λ set. AnswersRead result
        (value_unless (option_map length (set (Object.Labels «module»)))
        (optional_fault is_area_size (Object.Labels «module») (set (Object.Labels «module»))))) }
    ensures sized { IfOk result (λ found. (bytes : ℕ) → found ≡ Some bytes → IsAreaSize bytes) }
    ensures apart { result ≢ Err (LoadFault.Nfit NfitFault.OutOfMemory) }
    ensures source { LeavesSource (S.held images.old) (S.held images.new)
        (S.faults images.old) (S.faults images.new) result LoadFault.ReadFault }
{
    let object = Object::Labels(module);
    match images.length(object)? {
        None => Ok(None),
        Some(bytes) if is_area_size(bytes) => Ok(Some(bytes)),
        Some(bytes) => Err(LoadFault::Size { object, bytes }),
    }
}

/// Returns the size of a module's contents, after `before` bytes of those before it.
fn contents_size<S: ImageSource>(images: &mut S, module: u32, before: u64) -> Result<u64, LoadFault>
    requires { before ≤ most_contents }
    ensures told { ForSome (S.held images.old) (λ set. AnswersRead result
        (value_unless (length (bytes_of set (Object.Contents «module»)))
        (needed_fault (is_contents_size before) (Object.Contents «module»)
        (set (Object.Contents «module»))))) }
    ensures sized { IfOk result (λ bytes. is_contents_size before bytes ≡ true) }
    ensures apart { result ≢ Err (LoadFault.Nfit NfitFault.OutOfMemory) }
    ensures source { LeavesSource (S.held images.old) (S.held images.new)
        (S.faults images.old) (S.faults images.new) result LoadFault.ReadFault }
{
    let object = Object::Contents(module);
    match images.length(object)? {
        None => Err(LoadFault::Missing { object }),
        Some(bytes) if is_contents_size(before, bytes) => Ok(bytes),
        Some(bytes) => Err(LoadFault::Size { object, bytes }),
    }
}

/// Returns the size of a module's list of bad ranges, if it has one.
fn bad_size<S: ImageSource>(images: &mut S, module: u32) -> Result<Option<u64>, LoadFault>
    ensures told { ForSome (S.held images.old) (λ set. AnswersRead result
        (value_unless (option_map length (set (Object.BadRanges «module»)))
        (optional_fault is_bad_size (Object.BadRanges «module»)
        (set (Object.BadRanges «module»))))) }
    ensures sized { IfOk result (λ found. (bytes : ℕ) → found ≡ Some bytes
        → is_bad_size bytes ≡ true) }
    ensures apart { result ≢ Err (LoadFault.Nfit NfitFault.OutOfMemory) }
    ensures source { LeavesSource (S.held images.old) (S.held images.new)
        (S.faults images.old) (S.faults images.new) result LoadFault.ReadFault }
{
    let object = Object::BadRanges(module);
    match images.length(object)? {
        None => Ok(None),
        Some(bytes) if is_bad_size(bytes) => Ok(Some(bytes)),
        Some(bytes) => Err(LoadFault::Size { object, bytes }),
    }
}

/// Returns the sizes of a module's objects, after `before` bytes of the contents before it.
fn module_sizes<S: ImageSource>(
    images: &mut S,
    module: u32,
    before: u64,
) -> Result<Sizes, LoadFault>
    requires { before ≤ most_contents }
    ensures told { ForSome (S.held images.old) (λ set. AnswersRead result
        (value_unless (sizes_of set «module») (module_fault set before «module»))) }
    ensures sized { IfOk result IsSized }
    ensures few { IfOk result (λ sizes. before + sizes.contents ≤ most_contents) }
    ensures apart { result ≢ Err (LoadFault.Nfit NfitFault.OutOfMemory) }
    ensures source { LeavesSource (S.held images.old) (S.held images.new)
        (S.faults images.old) (S.faults images.new) result LoadFault.ReadFault }
{
    let labels = labels_size(images, module)?;
    let contents = contents_size(images, module, before)?;
    let bad = bad_size(images, module)?;
    Ok(Sizes {
        labels,
        contents,
        bad,
    })
}

/// Returns the sizes of the objects of `count` modules.
pub(crate) fn modules_sizes<S: ImageSource>(
    alloc: Global,
    images: &mut S,
    count: u32,
) -> Result<Items<Sizes>, LoadFault>
    ensures told { ForSome (S.held images.old) (λ set. AnswersRead result
        (value_unless (map (sizes_of set) (range_with_len 0 count)) (modules_fault set count))) }
    ensures sized { IfOk result AreSized }
    ensures count { IfOk result (λ sizes. length sizes ≡ count) }
    ensures apart { result ≢ Err (LoadFault.Nfit NfitFault.OutOfMemory) }
    ensures source { LeavesSource (S.held images.old) (S.held images.new)
        (S.faults images.old) (S.faults images.new) result LoadFault.ReadFault }
{
    let mut all = Items::new(alloc);
    let mut before = 0;
    for module in 0..count {
        let sizes = module_sizes(images, module, before)?;
        before += sizes.contents;
        all.push(sizes)?;
    }
    Ok(all)
}
