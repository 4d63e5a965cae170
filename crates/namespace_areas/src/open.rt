//! Opens the label areas of all modules.
ghost use Rattle.std.specs.Prelude.{◌≡◌, ◌≢◌, ◌*◌, IfOk, length, map};
ghost use Rattle.cut_words.specs.Words.{settled};
ghost use Rattle.label_index.specs.Area.{IsAreaSize};
ghost use Rattle.label_area.specs.Opened.{opened};
ghost use Rattle.namespace_areas.specs.Opening.{as_area, opened_as, AreWhole, IsWhole};

use crate::Area;
use cut_words::CutWords;
use label_area::{AreaFault, AreaRefused, open_area};
use nvd_words::Items;
use std::alloc::{AllocError, Global};

/// An area that isn't open. Out of memory is no finding about it.
fn refused_area(refused: AreaRefused) -> Result<Area, AllocError>
    ensures same { IfOk result (λ area. area ≡ Area.Refused refused) }
    ensures finding { IfOk result (λ _. refused.fault ≢ AreaFault.OutOfMemory) }
{
    match refused.fault {
        AreaFault::OutOfMemory => Err(AllocError),
        _ => Ok(Area::Refused(refused)),
    }
}

/// The label area of a module that has one.
fn opened_area(alloc: Global, words: CutWords) -> Result<Area, AllocError>
    requires settled { words ≡ settled words.kept }
    requires size { IsAreaSize (8 * length words.kept) }
    ensures { IfOk result (λ area. area ≡ as_area (opened words.kept)) }
{
    match open_area(alloc, words) {
        Ok(area) => Ok(Area::Ready(area)),
        Err(refused) => refused_area(refused),
    }
}

/// The label area of a module, if it has one.
fn area_of(alloc: Global, words: Option<CutWords>) -> Result<Area, AllocError>
    requires { IsWhole words }
    ensures { IfOk result (λ area. area ≡ opened_as words) }
{
    match words {
        Some(words) => opened_area(alloc, words),
        None => Ok(Area::Absent),
    }
}

/// Opens the label areas of all modules, by the modules' numbers (UEFI 2.10, section 13.19).
///
/// Each row of words has a label area's size, and no word is pending. A module without a row has no area. An area without
/// a valid index block, or with one of another version, is refused and keeps its words. The one error is out of memory;
/// then the words are dropped.
pub fn open_areas(alloc: Global, labels: Items<Option<CutWords>>) -> Result<Items<Area>, AllocError>
    requires { AreWhole labels }
    ensures { IfOk result (λ areas. areas ≡ map opened_as labels) }
{
    let mut areas = Items::new(alloc);
    for words in labels.into_vec() {
        areas.push(area_of(alloc, words)?)?;
    }
    Ok(areas)
}
