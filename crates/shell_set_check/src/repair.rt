//! The label areas of a loaded set are repaired.
ghost use Rattle.std.specs.Prelude.{◌≡◌, ◌*◌, ◌++◌, ◌≤◌, IfOk, OnOk, length, map};
ghost use Rattle.std.specs.List.{All};
ghost use Rattle.std.specs.Option.{option_map};
ghost use Rattle.cut_words.specs.Words.{settled};
ghost use Rattle.cut_words.specs.WordBytes.{bytes_of};
ghost use Rattle.image_set.specs.Load.{bytes_kept};
ghost use Rattle.image_set.specs.Outline.{IsOutlined};
ghost use Rattle.image_set.specs.Sound.{IsArea};
ghost use Rattle.label_index.specs.Area.{IsAreaSize};
ghost use Rattle.label_repair.specs.Repair.{repair_in, repaired_words};
ghost use Rattle.shell_set_check.specs.Repair.{repair_line, repair_lines, repair_part, repair_part_of, side_number};
ghost use Rattle.shell_set_check.specs.Repairing.{repaired_in, repaired_outline};

use crate::areas::side_text;
use cut_words::CutWords;
use image_set::Outline;
use label_index::Side;
use label_repair::{IndexRepair, repair_area};
use nvd_words::Items;
use std::alloc::{AllocError, Global};

/// Returns the number of a side.
fn side_number(side: Side) -> u32
    ensures { result ≡ side_number side }
{
    match side {
        Side::Zero => 0,
        Side::One => 1,
    }
}

/// Appends the line of an index block that was written again.
fn push_repair(
    alloc: Global,
    module: u32,
    repair: &IndexRepair,
    text: &mut Vec<u8>,
) -> Result<(), AllocError>
    ensures { OnOk result (text.new.items ≡ text.old.items ++ repair_line «module» repair.now) }
{
    let what = side_text(alloc, module, side_number(repair.block.side), repair.fault)?;
    let line = format!(in alloc; "repaired {}\n", what)?;
    text.extend_from_slice(line.as_bytes())
}

/// Appends the line of a label area's repair, if it was repaired.
fn push_repaired(
    alloc: Global,
    module: u32,
    repair: Option<IndexRepair>,
    text: &mut Vec<u8>,
) -> Result<(), AllocError>
    ensures { OnOk result (text.new.items ≡ text.old.items ++ repair_part «module» repair) }
{
    match repair {
        Some(repair) => push_repair(alloc, module, &repair, text),
        None => Ok(()),
    }
}

/// Repairs the words of a label area, and appends the line of what was repaired.
fn repair_words(
    alloc: Global,
    module: u32,
    words: CutWords,
    text: &mut Vec<u8>,
) -> Result<CutWords, AllocError>
    requires settled { words ≡ settled words.kept }
    requires size { IsAreaSize (8 * length words.kept) }
    ensures words { IfOk result (λ after. after ≡ settled (repaired_words words.kept)) }
    ensures text { OnOk result (text.new.items ≡ text.old.items ++ repair_part «module» (repair_in (bytes_of words.kept))) }
{
    let mut words = words;
    let repair = repair_area(alloc, &mut words)?;
    push_repaired(alloc, module, repair, text)?;
    Ok(words)
}

/// Repairs a module's label area, if it has one, and appends the line of what was repaired.
fn repair_module(
    alloc: Global,
    module: u32,
    area: Option<CutWords>,
    text: &mut Vec<u8>,
) -> Result<Option<CutWords>, AllocError>
    requires { IsArea area }
    ensures area { IfOk result (λ after. after ≡ repaired_in area) }
    ensures text { OnOk result (text.new.items ≡ text.old.items ++ repair_part_of «module» (option_map bytes_kept area)) }
{
    match area {
        Some(words) => Ok(Some(repair_words(alloc, module, words, text)?)),
        None => Ok(None),
    }
}

/// Repairs all label areas, and appends the lines of what was repaired.
fn repair_areas(
    alloc: Global,
    labels: Items<Option<CutWords>>,
    text: &mut Vec<u8>,
) -> Result<Items<Option<CutWords>>, AllocError>
    requires areas { All IsArea labels }
    requires few { length labels ≤ 64 }
    ensures labels { IfOk result (λ after. after ≡ map repaired_in labels) }
    ensures text { OnOk result (text.new.items ≡ text.old.items ++ repair_lines 0 (map (option_map bytes_kept) labels)) }
{
    let mut repaired = Items::new(alloc);
    for area in labels.into_vec() {
        let module = repaired.len() as u32;
        repaired.push(repair_module(alloc, module, area, text)?)?;
    }
    Ok(repaired)
}

/// Repairs the label areas of a set, and appends the lines of what was repaired.
pub(crate) fn repair_outline(
    alloc: Global,
    outline: Outline,
    text: &mut Vec<u8>,
) -> Result<Outline, AllocError>
    requires { IsOutlined outline }
    ensures outline { IfOk result (λ after. after ≡ repaired_outline outline) }
    ensures text { OnOk result (text.new.items ≡ text.old.items ++ repair_lines 0 (map (option_map bytes_kept) outline.labels)) }
{
    let Outline {
        nfit,
        nfit_bytes,
        labels,
        sizes,
        bad,
    } = outline;
    let labels = repair_areas(alloc, labels, text)?;
    Ok(Outline {
        nfit,
        nfit_bytes,
        labels,
        sizes,
        bad,
    })
}
