//! A loaded set is copied, since checking it takes it.
ghost use Rattle.std.specs.Prelude.{◌≡◌, IfOk, map};
ghost use Rattle.std.specs.List.{All};
ghost use Rattle.std.specs.Option.{option_map};
ghost use Rattle.cut_words.specs.Words.{settled};
ghost use Rattle.image_set.specs.Outline.{IsOutlined};
ghost use Rattle.image_set.specs.Sound.{IsArea};
ghost use Rattle.shell_set_check.specs.Repairing.{left_of};

use cut_words::{CutWords, WordSpace};
use image_set::{Outline, OutlineLeft};
use nvd_words::Items;
use std::alloc::{AllocError, Global};

/// Copies items.
fn copied<T: Copy>(alloc: Global, items: &[T]) -> Result<Items<T>, AllocError>
    ensures { IfOk result (λ copy. copy ≡ items.now) }
{
    Ok(Items::from_vec(Vec::from_slice(alloc, items)?))
}

/// Copies the words of a label area.
fn copied_words(alloc: Global, words: &CutWords) -> Result<Items<u64>, AllocError>
    requires { words.now ≡ settled words.now.kept }
    ensures { IfOk result (λ copy. copy ≡ words.now.kept) }
{
    let mut copy = vec![in alloc; 0; words.count() as usize]?;
    words.load_from(0, &mut copy);
    Ok(Items::from_vec(copy))
}

/// Copies the words of a label area, if the module has one.
fn copied_area(alloc: Global, area: &Option<CutWords>) -> Result<Option<Items<u64>>, AllocError>
    requires { IsArea area.now }
    ensures { IfOk result (λ copy. copy ≡ option_map (λ w. w.kept) area.now) }
{
    match area {
        Some(words) => Ok(Some(copied_words(alloc, words)?)),
        None => Ok(None),
    }
}

/// Copies the words of all label areas.
fn copied_areas(
    alloc: Global,
    labels: &[Option<CutWords>],
) -> Result<Items<Option<Items<u64>>>, AllocError>
    requires { All IsArea labels.now }
    ensures { IfOk result (λ copies. copies ≡ map (option_map (λ w. w.kept)) labels.now) }
{
    let mut copies = Items::new(alloc);
    for area in labels {
        copies.push(copied_area(alloc, area)?)?;
    }
    Ok(copies)
}

/// Copies the bytes of a list of bad ranges, if the module has one.
fn copied_ranges(alloc: Global, ranges: &Option<Items<u8>>) -> Result<Option<Items<u8>>, AllocError>
    ensures { IfOk result (λ copy. copy ≡ ranges.now) }
{
    match ranges {
        Some(bytes) => Ok(Some(copied(alloc, bytes.as_slice())?)),
        None => Ok(None),
    }
}

/// Copies the bytes of all lists of bad ranges.
fn copied_bad(
    alloc: Global,
    bad: &[Option<Items<u8>>],
) -> Result<Items<Option<Items<u8>>>, AllocError>
    ensures { IfOk result (λ copies. copies ≡ bad.now) }
{
    let mut copies = Items::new(alloc);
    for ranges in bad {
        copies.push(copied_ranges(alloc, ranges)?)?;
    }
    Ok(copies)
}

/// Copies a set as it is saved. Its contents stay in the source.
pub(crate) fn copied_outline(alloc: Global, outline: &Outline) -> Result<OutlineLeft, AllocError>
    requires { IsOutlined outline.now }
    ensures { IfOk result (λ left. left ≡ left_of outline.now) }
{
    Ok(OutlineLeft {
        nfit: copied(alloc, outline.nfit_bytes.as_slice())?,
        labels: copied_areas(alloc, outline.labels.as_slice())?,
        sizes: copied(alloc, outline.sizes.as_slice())?,
        bad: copied_bad(alloc, outline.bad.as_slice())?,
    })
}
