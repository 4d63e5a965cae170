//! Writing words as the bytes of an object, in large pieces.
ghost use Rattle.std.specs.Prelude.{◌≡◌, ◌≢◌, ◌+◌, ◌-◌, ◌*◌, ◌<◌, ◌≤◌, ◌++◌, Some, None, min, take, drop, length, map, vec_len, IfOk};
ghost use Rattle.std.specs.Option.{ForSome, option_map};
ghost use Rattle.std.specs.Int.{w64, to_le_bytes};
ghost use Rattle.std.specs.Vec.{vec_capacity};
ghost use Rattle.nvd_media.specs.Images.{with_more, bytes_of as bytes_in};
ghost use Rattle.cut_words.specs.WordBytes.{bytes_of};
ghost use Rattle.image_set.specs.Save.{Adds, HasNone, with_some, with_module};

use nvd_media::{Failed, ImageSink, Object};
use nvd_words::Items;
use std::alloc::{AllocError, Global};

/// How many words are written at a time: 256 KiB, which fit a processor's caches while they are
/// converted and written.
const PIECE_WORDS: usize = 32 << 10;

/// The size of a word, in bytes.
const WORD: usize = 8;

/// Allocates the buffer for the bytes of a piece.
pub(crate) fn spelling_room(alloc: Global) -> Result<Vec<[u8; WORD]>, AllocError>
    ensures { IfOk result (λ room. 32768 ≤ vec_capacity room) }
{
    Vec::with_capacity(alloc, PIECE_WORDS)
}

/// Resizes the buffer to `count` words, for which it has the capacity.
fn resize(room: &mut Vec<[u8; WORD]>, count: usize)
    requires { count ≤ vec_capacity room.old }
    ensures len { vec_len room.new ≡ count }
    ensures capacity { vec_capacity room.old ≤ vec_capacity room.new }
{
    let resized = room.resize(count, [0; WORD]);
    prove!(resized.is_ok());
}

/// Converts words to bytes, the low byte first, in a buffer for as many words.
fn spell<'a>(room: &'a mut [[u8; WORD]], words: &[u64]) -> &'a [u8]
    requires { length room.old ≡ length words.now }
    ensures { result.now ≡ bytes_of words.now }
{
    for i in 0..words.len() {
        room[i] = words[i].to_le_bytes();
    }
    room.as_flattened()
}

/// Writes one piece of an object's words, from `at` on, and returns the index after it. The last
/// piece may be shorter.
fn write_piece<K: ImageSink>(
    out: &mut K,
    object: Object,
    words: &[u64],
    at: usize,
    room: &mut Vec<[u8; WORD]>,
) -> Result<usize, Failed>
    requires not_mark { object ≢ Object.Mark }
    requires within { at ≤ length words.now }
    requires room { 32768 ≤ vec_capacity room.old }
    requires end { ForSome (K.made out.old) (λ set. 8 * at ≡ length (bytes_in set object)) }
    ensures adds { Adds (K.made out.old) (K.made out.new) (K.kept out.old) (K.kept out.new) (K.faults out.old) (K.faults out.new) result
        (λ set. with_more set object (bytes_of (take (min 32768 (length words.now - at)) (drop at words.now)))) }
    ensures next { IfOk result (λ next. next ≡ at + min 32768 (length words.now - at)) }
    ensures room { 32768 ≤ vec_capacity room.new }
{
    let count = (words.len() - at).min(PIECE_WORDS);
    resize(room, count);
    let bytes = spell(room, &words[at..at + count]);
    out.write(object, (WORD * at) as u64, bytes)?;
    Ok(at + count)
}

/// Writes words as an object that doesn't exist yet, the low byte of each word first.
pub(crate) fn write_words<K: ImageSink>(
    out: &mut K,
    object: Object,
    words: &[u64],
    room: &mut Vec<[u8; WORD]>,
) -> Result<(), Failed>
    requires not_mark { object ≢ Object.Mark }
    requires room { 32768 ≤ vec_capacity room.old }
    requires absent { ForSome (K.made out.old) (λ set. set object ≡ None) }
    ensures adds { Adds (K.made out.old) (K.made out.new) (K.kept out.old) (K.kept out.new) (K.faults out.old) (K.faults out.new) result
        (λ set. with_more set object (bytes_of words.now)) }
    ensures room { 32768 ≤ vec_capacity room.new }
{
    let mut at = write_piece(out, object, words, 0, room)?;
    while at < words.len() {
        at = write_piece(out, object, words, at, room)?;
    }
    Ok(())
}

/// Writes a label area, if there is one.
pub(crate) fn write_area<K: ImageSink>(
    out: &mut K,
    module: u32,
    area: &Option<Items<u64>>,
    room: &mut Vec<[u8; WORD]>,
) -> Result<(), Failed>
    requires room { 32768 ≤ vec_capacity room.old }
    requires absent { ForSome (K.made out.old) (λ set. set (Object.Labels «module») ≡ None) }
    ensures adds { Adds (K.made out.old) (K.made out.new) (K.kept out.old) (K.kept out.new) (K.faults out.old) (K.faults out.new) result
        (λ set. with_some set (Object.Labels «module») (option_map bytes_of area.now)) }
    ensures room { 32768 ≤ vec_capacity room.new }
{
    match area {
        Some(words) => write_words(out, Object::Labels(module), words.as_slice(), room),
        None => Ok(()),
    }
}

/// Writes a list of bad ranges, if there is one; it may be empty.
pub(crate) fn write_ranges<K: ImageSink>(
    out: &mut K,
    module: u32,
    ranges: &Option<Items<u8>>,
) -> Result<(), Failed>
    requires absent { ForSome (K.made out.old) (λ set. set (Object.BadRanges «module») ≡ None) }
    ensures adds { Adds (K.made out.old) (K.made out.new) (K.kept out.old) (K.kept out.new) (K.faults out.old) (K.faults out.new) result
        (λ set. with_some set (Object.BadRanges «module») ranges.now) }
{
    match ranges {
        Some(bytes) => out.write(Object::BadRanges(module), 0, bytes.as_slice()),
        None => Ok(()),
    }
}

/// Writes the objects of a module that has none yet: its label area, its contents and its list of
/// bad ranges, in this order.
pub(crate) fn write_module<K: ImageSink>(
    out: &mut K,
    module: u32,
    area: &Option<Items<u64>>,
    contents: &[u64],
    ranges: &Option<Items<u8>>,
    room: &mut Vec<[u8; WORD]>,
) -> Result<(), Failed>
    requires room { 32768 ≤ vec_capacity room.old }
    requires absent { ForSome (K.made out.old) (HasNone «module») }
    ensures adds { Adds (K.made out.old) (K.made out.new) (K.kept out.old) (K.kept out.new) (K.faults out.old) (K.faults out.new) result
        (with_module «module» (option_map bytes_of area.now) (bytes_of contents.now) ranges.now) }
    ensures room { 32768 ≤ vec_capacity room.new }
{
    write_area(out, module, area, room)?;
    write_words(out, Object::Contents(module), contents, room)?;
    write_ranges(out, module, ranges)
}
