//! Reading the bytes of a set whose sizes are known.
ghost use Rattle.std.specs.Prelude.{◌≡◌, ◌*◌, ◌≤◌, ◌<◌, ◌%◌, ℕ, length, map, vec_len, IfOk, Option, Some};
ghost use Rattle.std.specs.Option.{ForSome, option_map};
ghost use Rattle.std.specs.List.{All, range_with_len};
ghost use Rattle.nvd_media.specs.Causes.{LeavesSource};
ghost use Rattle.nvd_media.specs.Images.{bytes_of};
ghost use Rattle.image_set.specs.Known.{AreKnown};
ghost use Rattle.image_set.specs.Load.{bytes_kept};
ghost use Rattle.image_set.specs.Outline.{HasContents, contents_in};
ghost use Rattle.image_set.specs.Sound.{size_of, AreWords, IsArea, IsContents, IsBadRanges, IsSettled};
ghost use Rattle.image_set.specs.Sizes.{IsContentsSize, contents_of};
ghost use Rattle.label_index.specs.Area.{IsAreaSize};

use crate::fault::Stop;
use crate::pieces::{read_bytes, read_words};
use crate::sizes::Sizes;
use cut_words::CutWords;
use nvd_media::{ImageSource, Object};
use nvd_words::Items;
use std::alloc::{AllocError, Global};

/// States the bound of the words' type as a clause. It does nothing at run time.
fn know_words(words: &[u64])
    ensures { AreWords words.now }
{
    if let Some(word) = words.first() {
        prove!(*word <= u64::MAX);
    }
}

/// Reads an object of `bytes` bytes as words, none of them pending.
fn read_object<S: ImageSource>(
    alloc: Global,
    images: &mut S,
    object: Object,
    bytes: u64,
    room: &mut Vec<u8>,
) -> Result<CutWords, Stop>
    requires room { vec_len room.old ≡ 262144 }
    requires whole { bytes % 8 ≡ 0 }
    requires there { ForSome (S.held images.old) (λ set. length (bytes_of set object) ≡ bytes) }
    ensures told { ForSome (S.held images.old)
        (λ set. IfOk result (λ words. bytes_kept words ≡ bytes_of set object)) }
    ensures count { IfOk result (λ words. size_of words ≡ bytes) }
    ensures settled { IfOk result IsSettled }
    ensures room { vec_len room.new ≡ 262144 }
    ensures source { LeavesSource (S.held images.old) (S.held images.new)
        (S.faults images.old) (S.faults images.new) result Stop.ReadFault }
{
    let words = read_words(alloc, images, object, bytes, room)?;
    know_words(&words);
    Ok(CutWords::new(alloc, words)?)
}

/// Reads a module's label area, if it has one.
fn read_area<S: ImageSource>(
    alloc: Global,
    images: &mut S,
    module: u32,
    bytes: Option<u64>,
    room: &mut Vec<u8>,
) -> Result<Option<CutWords>, Stop>
    requires room { vec_len room.old ≡ 262144 }
    requires sized { (n : ℕ) → bytes ≡ Some n → IsAreaSize n }
    requires there { ForSome (S.held images.old) (λ set. bytes
        ≡ option_map length (set (Object.Labels «module»))) }
    ensures told { ForSome (S.held images.old)
        (λ set. IfOk result (λ area. option_map bytes_kept area ≡ set (Object.Labels «module»))) }
    ensures sound { IfOk result IsArea }
    ensures room { vec_len room.new ≡ 262144 }
    ensures source { LeavesSource (S.held images.old) (S.held images.new)
        (S.faults images.old) (S.faults images.new) result Stop.ReadFault }
{
    match bytes {
        None => Ok(None),
        Some(bytes) => Ok(Some(read_object(alloc, images, Object::Labels(module), bytes, room)?)),
    }
}

/// Reads a module's list of bad ranges, if it has one.
fn read_ranges<S: ImageSource>(
    alloc: Global,
    images: &mut S,
    module: u32,
    bytes: Option<u64>,
) -> Result<Option<Items<u8>>, Stop>
    requires multiple { (n : ℕ) → bytes ≡ Some n → n % 16 ≡ 0 }
    requires few { (n : ℕ) → bytes ≡ Some n → n ≤ 65536 }
    requires there { ForSome (S.held images.old) (λ set. bytes
        ≡ option_map length (set (Object.BadRanges «module»))) }
    ensures told { ForSome (S.held images.old)
        (λ set. IfOk result (λ ranges. ranges ≡ set (Object.BadRanges «module»))) }
    ensures sound { IfOk result IsBadRanges }
    ensures source { LeavesSource (S.held images.old) (S.held images.new)
        (S.faults images.old) (S.faults images.new) result Stop.ReadFault }
{
    match bytes {
        None => Ok(None),
        Some(bytes) => Ok(Some(Items::from_vec(read_bytes(
            alloc,
            images,
            Object::BadRanges(module),
            bytes,
        )?))),
    }
}

/// Reads the label areas of all modules.
pub(crate) fn read_areas<S: ImageSource>(
    alloc: Global,
    images: &mut S,
    sizes: &[Sizes],
    room: &mut Vec<u8>,
) -> Result<Items<Option<CutWords>>, Stop>
    requires room { vec_len room.old ≡ 262144 }
    requires known { AreKnown (S.held images.old) sizes.now }
    ensures told { ForSome (S.held images.old) (λ set. IfOk result
        (λ areas. map (option_map bytes_kept) areas
        ≡ map (λ m. set (Object.Labels m)) (range_with_len 0 (length sizes.now)))) }
    ensures sound { IfOk result (All IsArea) }
    ensures count { IfOk result (λ areas. length areas ≡ length sizes.now) }
    ensures room { vec_len room.new ≡ 262144 }
    ensures source { LeavesSource (S.held images.old) (S.held images.new)
        (S.faults images.old) (S.faults images.new) result Stop.ReadFault }
{
    let mut areas = Items::new(alloc);
    for module in 0..sizes.len() as u32 {
        let bytes = sizes[module as usize].labels;
        let area = read_area(alloc, images, module, bytes, room)?;
        areas.push(area)?;
    }
    Ok(areas)
}

/// Returns the size of each module's contents, in bytes.
pub(crate) fn contents_sizes(alloc: Global, sizes: &[Sizes]) -> Result<Items<u64>, AllocError>
    ensures { IfOk result (λ bytes. bytes ≡ contents_of sizes.now) }
{
    let mut bytes = Items::new(alloc);
    for of_module in sizes {
        bytes.push(of_module.contents)?;
    }
    Ok(bytes)
}

/// Reads the contents of all modules, of which these are the sizes in bytes.
pub(crate) fn read_contents<S: ImageSource>(
    alloc: Global,
    images: &mut S,
    sizes: &[u64],
    room: &mut Vec<u8>,
) -> Result<Items<CutWords>, Stop>
    requires room { vec_len room.old ≡ 262144 }
    requires few { length sizes.now ≤ 64 }
    requires sized { All IsContentsSize sizes.now }
    requires there { ForSome (S.held images.old) (HasContents sizes.now) }
    ensures told { ForSome (S.held images.old) (λ set. IfOk result
        (λ contents. map bytes_kept contents ≡ contents_in set (length sizes.now))) }
    ensures sound { IfOk result (All IsContents) }
    ensures sizes { IfOk result (λ contents. map size_of contents ≡ sizes.now) }
    ensures room { vec_len room.new ≡ 262144 }
    ensures source { LeavesSource (S.held images.old) (S.held images.new)
        (S.faults images.old) (S.faults images.new) result Stop.ReadFault }
{
    let mut contents = Items::new(alloc);
    for module in 0..sizes.len() as u32 {
        let bytes = sizes[module as usize];
        let words = read_object(alloc, images, Object::Contents(module), bytes, room)?;
        contents.push(words)?;
    }
    Ok(contents)
}

/// Reads the lists of bad ranges of all modules.
pub(crate) fn read_bad<S: ImageSource>(
    alloc: Global,
    images: &mut S,
    sizes: &[Sizes],
) -> Result<Items<Option<Items<u8>>>, Stop>
    requires known { AreKnown (S.held images.old) sizes.now }
    ensures told { ForSome (S.held images.old) (λ set. IfOk result (λ bad. bad
        ≡ map (λ m. set (Object.BadRanges m)) (range_with_len 0 (length sizes.now)))) }
    ensures sound { IfOk result (All IsBadRanges) }
    ensures count { IfOk result (λ bad. length bad ≡ length sizes.now) }
    ensures source { LeavesSource (S.held images.old) (S.held images.new)
        (S.faults images.old) (S.faults images.new) result Stop.ReadFault }
{
    let mut bad = Items::new(alloc);
    for module in 0..sizes.len() as u32 {
        let bytes = sizes[module as usize].bad;
        let ranges = read_ranges(alloc, images, module, bytes)?;
        bad.push(ranges)?;
    }
    Ok(bad)
}
