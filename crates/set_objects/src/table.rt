//! The firmware's table of an image set.
ghost use Rattle.std.specs.Prelude.{◌≡◌, ◌≢◌, ◌≤◌, ◌<◌, ◌^◌, true, ℕ, length, IfOk, Err, Ok};
ghost use Rattle.std.specs.Option.{ForSome};
ghost use Rattle.std.specs.Result.{result_map_both};
ghost use Rattle.nvd_words.specs.Checks.{Answers, value_unless};
ghost use Rattle.nvd_media.specs.Causes.{LeavesSource};
ghost use Rattle.nvd_media.specs.Images.{bytes_of};
ghost use Rattle.nfit_reader.specs.Table.{nfit_reading};
ghost use Rattle.nfit_reader.specs.Counted.{AreCounted, NamesItsModules};
ghost use Rattle.image_set.specs.Limits.{is_nfit_size};
ghost use Rattle.image_set.specs.Load.{AnswersRead, needed_fault, table_fault};
ghost use Rattle.set_objects.specs.Objects.{table_reading};
ghost use Rattle.set_objects.specs.Table.{IsTable, IsTableOf};

use crate::bytes::read_bytes;
use image_set::LoadFault;
use nfit_reader::{Nfit, NfitFault, read_nfit};
use nvd_media::{ImageSource, Object};
use nvd_words::Items;
use std::alloc::Global;

/// The most bytes of the firmware's table.
const NFIT_BYTES: u64 = 1 << 20;

/// A firmware's table.
#[derive(Debug, Drop)]
pub(crate) struct Table {
    /// The decoded table.
    pub nfit: Nfit,
    /// The bytes of its object, including those past its Length.
    pub bytes: Items<u8>,
}

/// Checks that the mark is there.
fn find_mark<S: ImageSource>(images: &mut S) -> Result<(), LoadFault>
    ensures told { ForSome (S.held images.old) (λ set. AnswersRead result
        (value_unless tt (needed_fault (λ _. true) Object.Mark (set Object.Mark)))) }
    ensures apart { result ≢ Err (LoadFault.Nfit NfitFault.OutOfMemory) }
    ensures source { LeavesSource (S.held images.old) (S.held images.new)
        (S.faults images.old) (S.faults images.new) result LoadFault.ReadFault }
{
    let object = Object::Mark;
    match images.length(object)? {
        Some(_) => Ok(()),
        None => Err(LoadFault::Missing { object }),
    }
}

/// Returns the size of the firmware's table.
fn find_table<S: ImageSource>(images: &mut S) -> Result<u64, LoadFault>
    ensures told { ForSome (S.held images.old) (λ set. AnswersRead result
        (value_unless (length (bytes_of set Object.Nfit))
        (needed_fault is_nfit_size Object.Nfit (set Object.Nfit)))) }
    ensures apart { result ≢ Err (LoadFault.Nfit NfitFault.OutOfMemory) }
    ensures source { LeavesSource (S.held images.old) (S.held images.new)
        (S.faults images.old) (S.faults images.new) result LoadFault.ReadFault }
{
    let object = Object::Nfit;
    match images.length(object)? {
        None => Err(LoadFault::Missing { object }),
        Some(bytes) if bytes <= NFIT_BYTES => Ok(bytes),
        Some(bytes) => Err(LoadFault::Size { object, bytes }),
    }
}

/// Returns the size of the firmware's table, after checking the mark.
fn table_size<S: ImageSource>(images: &mut S) -> Result<u64, LoadFault>
    ensures told { ForSome (S.held images.old) (λ set. AnswersRead result
        (value_unless (length (bytes_of set Object.Nfit)) (table_fault set))) }
    ensures apart { result ≢ Err (LoadFault.Nfit NfitFault.OutOfMemory) }
    ensures source { LeavesSource (S.held images.old) (S.held images.new)
        (S.faults images.old) (S.faults images.new) result LoadFault.ReadFault }
{
    find_mark(images)?;
    find_table(images)
}

/// Decodes the firmware's table.
fn table_of(alloc: Global, bytes: &[u8]) -> Result<Nfit, LoadFault>
    ensures reading { Answers LoadFault.OutOfMemory result (result_map_both (λ nfit. nfit)
        LoadFault.Nfit (nfit_reading bytes.now)) }
    ensures apart { result ≢ Err (LoadFault.Nfit NfitFault.OutOfMemory) }
    ensures no_read { result ≢ Err LoadFault.ReadFault }
    ensures counted { IfOk result AreCounted }
    ensures few { IfOk result (λ nfit. length nfit.regions < 2 ^ 32) }
    ensures modules { IfOk result NamesItsModules }
{
    match read_nfit(alloc, bytes) {
        Ok(nfit) => Ok(nfit),
        Err(NfitFault::OutOfMemory) => Err(LoadFault::OutOfMemory),
        Err(fault) => Err(LoadFault::Nfit(fault)),
    }
}

/// Reads the firmware's table.
pub(crate) fn read_table<S: ImageSource>(alloc: Global, images: &mut S) -> Result<Table, LoadFault>
    ensures told { ForSome (S.held images.old) (λ set. AnswersRead
        (result_map_both (λ table. table.nfit) (λ fault. fault) result) (table_reading set)) }
    ensures there { ForSome (S.held images.old)
        (λ set. IfOk result (λ table. IsTableOf table set)) }
    ensures sound { IfOk result IsTable }
    ensures apart { result ≢ Err (LoadFault.Nfit NfitFault.OutOfMemory) }
    ensures source { LeavesSource (S.held images.old) (S.held images.new)
        (S.faults images.old) (S.faults images.new) result LoadFault.ReadFault }
{
    let size = table_size(images)?;
    let bytes = read_bytes(alloc, images, Object::Nfit, size)?;
    let nfit = table_of(alloc, &bytes)?;
    Ok(Table {
        nfit,
        bytes: Items::from_vec(bytes),
    })
}
