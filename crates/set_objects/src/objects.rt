//! What can be read of an image set, and the faults of the rest.
ghost use Rattle.std.specs.Prelude.{◌≡◌, ◌≢◌, ◌≤◌, IfOk, Err};
ghost use Rattle.std.specs.Option.{ForSome};
ghost use Rattle.nvd_media.specs.Causes.{LeavesSource, Rose};
ghost use Rattle.set_objects.specs.Read.{IsRead, IsSetRead, Reads, ReadsSet, IsFinding};
ghost use Rattle.set_objects.specs.Table.{IsTable, IsTableOf};

use crate::fault::ReadStop;
use crate::faults::faults_of;
use crate::found::{contents_sizes, find_modules};
use crate::reading::{read_areas, read_bad};
use crate::table::{Table, read_table};
use image_set::{LoadFault, Outline};
use nfit_reader::NfitFault;
use nvd_media::ImageSource;
use nvd_words::Items;
use std::alloc::Global;

/// What can be read of an image set.
#[derive(Debug, Drop)]
pub enum ObjectsRead {
    /// No module is known, since the firmware's table can't be read: the mark or the table is
    /// missing, the table is larger than 1 MiB, or it is refused.
    NoTable(LoadFault),
    /// The firmware's table is read.
    Table(SetRead),
}

/// What can be read of an image set whose table is read.
#[derive(Debug, Drop)]
pub struct SetRead {
    /// The set without its contents. A label area or a list of bad ranges with a fault counts as
    /// absent. Contents have the length that they have, in bytes, and 0 if they are missing.
    pub outline: Outline,
    /// The faults of the modules' objects, module by module: that of the label area, that of the
    /// contents, that of the list of bad ranges. Each is `Missing` or `Size`.
    pub faults: Items<LoadFault>,
}

/// Reads the objects of a table's modules.
fn read_set<S: ImageSource>(
    alloc: Global,
    images: &mut S,
    table: Table,
) -> Result<SetRead, ReadStop>
    requires table { IsTable table }
    requires there { ForSome (S.held images.old) (IsTableOf table) }
    ensures told { ForSome (S.held images.old) (λ set. IfOk result (λ read. ReadsSet read set)) }
    ensures sound { IfOk result IsSetRead }
    ensures source { LeavesSource (S.held images.old) (S.held images.new)
        (S.faults images.old) (S.faults images.new) result ReadStop.ReadFault }
{
    let found = find_modules(alloc, images, table.nfit.modules.len() as u32)?;
    let faults = faults_of(alloc, table.nfit.regions.as_slice(), found.as_slice())?;
    let sizes = contents_sizes(alloc, found.as_slice())?;
    let labels = read_areas(alloc, images, found.as_slice())?;
    let bad = read_bad(alloc, images, found.as_slice())?;
    Ok(SetRead {
        outline: Outline {
            nfit: table.nfit,
            nfit_bytes: table.bytes,
            labels,
            sizes,
            bad,
        },
        faults,
    })
}

/// Answers that no table is read, unless reading stopped.
fn no_table(fault: LoadFault) -> Result<ObjectsRead, ReadStop>
    requires { fault ≢ LoadFault.Nfit NfitFault.OutOfMemory }
    ensures told { IfOk result (λ read. read ≡ ObjectsRead.NoTable fault) }
    ensures finding { IfOk result (λ _. IsFinding fault) }
    ensures failed { result ≡ Err ReadStop.ReadFault → fault ≡ LoadFault.ReadFault }
{
    match fault {
        LoadFault::ReadFault => Err(ReadStop::ReadFault),
        LoadFault::OutOfMemory => Err(ReadStop::OutOfMemory),
        LoadFault::Missing { object } => Ok(ObjectsRead::NoTable(LoadFault::Missing { object })),
        LoadFault::Size { object, bytes } => {
            Ok(ObjectsRead::NoTable(LoadFault::Size { object, bytes }))
        }
        LoadFault::Nfit(of_table) => Ok(ObjectsRead::NoTable(LoadFault::Nfit(of_table))),
    }
}

/// Reads what can be read of an image set without its contents, and names every fault of its
/// objects.
///
/// - `told`: if the source reveals what it holds, the answer is what its set gives (`Reads`):
///   `NoTable` with the fault of the mark or the table, or `Table` with each label area and list of
///   bad ranges that has no fault, the length of all contents, and all faults. If there is no
///   fault, the outline with the source's contents is the set that `image_set::load` returns.
/// - `sound`: whatever the source reveals, the outline is within its limits and consistent, and its
///   contents can be read later if there is no fault. No fault in the answer is `ReadFault`,
///   `OutOfMemory` or `Nfit` with `NfitFault::OutOfMemory`.
/// - `failed`: `ReadFault` means that the source's count of failures rose in this call.
/// - `OutOfMemory` may replace any other result.
/// - `same`, `later`: the source holds what it held, and its count of failures never falls.
pub fn read_objects<S: ImageSource>(alloc: Global, images: &mut S) -> Result<ObjectsRead, ReadStop>
    ensures told { ForSome (S.held images.old) (λ set. IfOk result (λ read. Reads read set)) }
    ensures sound { IfOk result IsRead }
    ensures failed { result ≡ Err ReadStop.ReadFault
        → Rose (S.faults images.old) (S.faults images.new) }
    ensures later { S.faults images.old ≤ S.faults images.new }
    ensures same { S.held images.new ≡ S.held images.old }
{
    match read_table(alloc, images) {
        Ok(table) => Ok(ObjectsRead::Table(read_set(alloc, images, table)?)),
        Err(fault) => no_table(fault),
    }
}
