//! Reading the label areas and lists of bad ranges whose sizes are within their limits.
ghost use Rattle.std.specs.Prelude.{◌≡◌, ◌≤◌, length, map, IfOk};
ghost use Rattle.std.specs.Option.{ForSome, option_map};
ghost use Rattle.std.specs.List.{All, range_with_len};
ghost use Rattle.nvd_media.specs.Causes.{LeavesSource};
ghost use Rattle.image_set.specs.Load.{bytes_kept};
ghost use Rattle.image_set.specs.Sound.{IsArea};
ghost use Rattle.set_objects.specs.Found.{AreFoundIn};
ghost use Rattle.set_objects.specs.Objects.{bad_there, labels_there};

use crate::bytes::{read_bytes, read_words};
use crate::fault::ReadStop;
use crate::faults::is_bad_size;
use crate::found::Found;
use cut_words::CutWords;
use label_index::is_area_size;
use nvd_media::{ImageSource, Object};
use nvd_words::Items;
use std::alloc::Global;

/// Reads a module's label area, if it has one of a size within the limits.
fn read_area<S: ImageSource>(
    alloc: Global,
    images: &mut S,
    module: u32,
    found: Option<u64>,
) -> Result<Option<CutWords>, ReadStop>
    requires { ForSome (S.held images.old) (λ set. found
        ≡ option_map length (set (Object.Labels «module»))) }
    ensures told { ForSome (S.held images.old)
        (λ set. IfOk result (λ area. option_map bytes_kept area ≡ labels_there set «module»)) }
    ensures sound { IfOk result IsArea }
    ensures source { LeavesSource (S.held images.old) (S.held images.new)
        (S.faults images.old) (S.faults images.new) result ReadStop.ReadFault }
{
    match found {
        None => Ok(None),
        Some(bytes) if is_area_size(bytes) => {
            Ok(Some(read_words(alloc, images, Object::Labels(module), bytes)?))
        }
        Some(_) => Ok(None),
    }
}

/// Reads a module's list of bad ranges, if it has one of a size within the limits.
fn read_ranges<S: ImageSource>(
    alloc: Global,
    images: &mut S,
    module: u32,
    found: Option<u64>,
) -> Result<Option<Items<u8>>, ReadStop>
    requires { ForSome (S.held images.old) (λ set. found
        ≡ option_map length (set (Object.BadRanges «module»))) }
    ensures told { ForSome (S.held images.old)
        (λ set. IfOk result (λ ranges. ranges ≡ bad_there set «module»)) }
    ensures source { LeavesSource (S.held images.old) (S.held images.new)
        (S.faults images.old) (S.faults images.new) result ReadStop.ReadFault }
{
    match found {
        None => Ok(None),
        Some(bytes) if is_bad_size(bytes) => Ok(Some(Items::from_vec(read_bytes(
            alloc,
            images,
            Object::BadRanges(module),
            bytes,
        )?))),
        Some(_) => Ok(None),
    }
}

/// Reads the label areas of all modules.
pub(crate) fn read_areas<S: ImageSource>(
    alloc: Global,
    images: &mut S,
    found: &[Found],
) -> Result<Items<Option<CutWords>>, ReadStop>
    requires few { length found.now ≤ 64 }
    requires there { ForSome (S.held images.old) (AreFoundIn found.now) }
    ensures told { ForSome (S.held images.old) (λ set. IfOk result
        (λ areas. map (option_map bytes_kept) areas
        ≡ map (labels_there set) (range_with_len 0 (length found.now)))) }
    ensures sound { IfOk result (All IsArea) }
    ensures count { IfOk result (λ areas. length areas ≡ length found.now) }
    ensures source { LeavesSource (S.held images.old) (S.held images.new)
        (S.faults images.old) (S.faults images.new) result ReadStop.ReadFault }
{
    let mut areas = Items::new(alloc);
    for module in 0..found.len() as u32 {
        let bytes = found[module as usize].labels;
        let area = read_area(alloc, images, module, bytes)?;
        areas.push(area)?;
    }
    Ok(areas)
}

/// Reads the lists of bad ranges of all modules.
pub(crate) fn read_bad<S: ImageSource>(
    alloc: Global,
    images: &mut S,
    found: &[Found],
) -> Result<Items<Option<Items<u8>>>, ReadStop>
    requires few { length found.now ≤ 64 }
    requires there { ForSome (S.held images.old) (AreFoundIn found.now) }
    ensures told { ForSome (S.held images.old) (λ set. IfOk result (λ bad. bad
        ≡ map (bad_there set) (range_with_len 0 (length found.now)))) }
    ensures count { IfOk result (λ bad. length bad ≡ length found.now) }
    ensures source { LeavesSource (S.held images.old) (S.held images.new)
        (S.faults images.old) (S.faults images.new) result ReadStop.ReadFault }
{
    let mut bad = Items::new(alloc);
    for module in 0..found.len() as u32 {
        let bytes = found[module as usize].bad;
        let ranges = read_ranges(alloc, images, module, bytes)?;
        bad.push(ranges)?;
    }
    Ok(bad)
}
