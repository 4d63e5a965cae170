//! The arenas of a namespace are loaded: their words are read from the source, and opened in memory.
ghost use Rattle.std.specs.Prelude.{◌≡◌, ℕ, ◌+◌, ◌*◌, ◌/◌, ◌%◌, ◌^◌, ◌<◌, ◌≤◌, ◌++◌, IfOk, OnOk, List, Ok, Err, is_err, true, length, map};
ghost use Rattle.std.specs.List.{All};
ghost use Rattle.nvd_media.specs.Causes.{HasCause};
ghost use Rattle.cut_words.specs.WordBytes.{words_in};
ghost use Rattle.arena_open.specs.Chain.{HasMemory, state_at, wants_memory};
ghost use Rattle.power_cut.specs.Namespace.{raw_bytes};
ghost use Rattle.sector_namespaces.specs.View.{opened_view};
ghost use Rattle.namespace_bytes.specs.Putting.{AreAll};
ghost use Rattle.namespace_bytes.specs.SectorPut.{AreSized};
ghost use Rattle.namespace_words.specs.Source.{AreWithin, HasEnds, IsFront, Reveals, words_by};

use crate::arena_read::ArenaRead;
use crate::extent::read_extent;
use arena_layout::InfoFault;
use arena_open::{Chain, ChainRefused, OpenRefused, open_chain};
use cut_words::{CutWords, Fuse};
use label_codec::Mode;
use namespace_areas::first_arena;
use nvd_media::{Failed, ImageSource};
use nvd_words::word_at;
use power_cut::SetExtent;
use std::alloc::{AllocError, Global};
use uuid::Uuid;

/// How many bytes are read at a time: 256 KiB, which fit a processor's caches while they become words.
const PIECE: usize = 256 << 10;

/// Returns how many words of the namespace there are up to the end of the last of these arenas.
fn end_of_all(arenas: &[ArenaRead]) -> u64
    requires { AreSized arenas.now }
    ensures each { All (λ link. link.at + link.opened.info.layout.size / 8 ≤ result) arenas.now }
    ensures within { (bytes : ℕ) → AreWithin bytes arenas.now → 8 * result ≤ bytes }
{
    let mut end = 0;
    for arena in arenas {
        end = end.max(arena.at + arena.opened.info.layout.size / 8);
    }
    end
}

/// Appends the words of bytes to others.
fn add_words(words: &mut Vec<u64>, bytes: &[u8]) -> Result<(), AllocError>
    ensures { OnOk result (words.new.items ≡ words.old.items ++ words_in bytes.now) }
{
    for k in 0..bytes.len() / 8 {
        words.push(word_at(bytes, 8 * k))?;
    }
    Ok(())
}

/// Reads the words of a namespace behind those that are read already, as many as there is room for in a buffer but not beyond the
/// first `count` of the namespace, and appends them.
fn read_piece<S: ImageSource>(
    images: &mut S,
    extent: &SetExtent<'_>,
    count: usize,
    room: &mut [u8],
    words: &mut Vec<u64>,
) -> Result<Result<(), AllocError>, Failed>
    requires room { 8 ≤ length room.old }
    requires more { length words.old.items < count }
    requires inside { 8 * count ≤ raw_bytes extent.now }
    requires few { raw_bytes extent.now ≤ 2 ^ 55 }
    requires there { HasEnds (S.held images.old) extent.now.set }
    ensures more { IfOk result (λ done. OnOk done ((length words.old.items < length words.new.items) × (length words.new.items ≤ count))) }
    ensures told { (contents : List (List ℕ)) → Reveals (S.held images.old) extent.now.set contents → IsFront words.old.items (words_by extent.now contents) → IfOk result (λ done. OnOk done (IsFront words.new.items (words_by extent.now contents))) }
    ensures room { length room.new ≡ length room.old }
    ensures same { S.held images.new ≡ S.held images.old }
    ensures cause { HasCause (S.faults images.old) (S.faults images.new) result }
{
    let first = 8 * words.len();
    let size = (8 * count - first).min(room.len() / 8 * 8);
    let piece = &mut room[..size];
    read_extent(images, extent, first as u64, piece)?;
    Ok(add_words(words, piece))
}

/// Reads the first `count` words of a namespace behind those that are read already, by pieces as large as the buffer.
fn read_pieces<S: ImageSource>(
    images: &mut S,
    extent: &SetExtent<'_>,
    count: usize,
    room: &mut [u8],
    words: &mut Vec<u64>,
) -> Result<Result<(), AllocError>, Failed>
    requires room { 8 ≤ length room.old }
    requires below { length words.old.items ≤ count }
    requires inside { 8 * count ≤ raw_bytes extent.now }
    requires few { raw_bytes extent.now ≤ 2 ^ 55 }
    requires there { HasEnds (S.held images.old) extent.now.set }
    ensures count { IfOk result (λ done. OnOk done (length words.new.items ≡ count)) }
    ensures told { (contents : List (List ℕ)) → Reveals (S.held images.old) extent.now.set contents → IsFront words.old.items (words_by extent.now contents) → IfOk result (λ done. OnOk done (IsFront words.new.items (words_by extent.now contents))) }
    ensures same { S.held images.new ≡ S.held images.old }
    ensures cause { HasCause (S.faults images.old) (S.faults images.new) result }
{
    while words.len() < count {
        if read_piece(images, extent, count, room, words)?.is_err() {
            return Ok(Err(AllocError));
        }
    }
    Ok(Ok(()))
}

/// The words that were read, unless memory ran out.
fn words_if(words: Vec<u64>, done: Result<(), AllocError>) -> Result<Vec<u64>, AllocError>
    ensures { IfOk result (λ made. (made ≡ words) × (done ≡ Ok tt)) }
{
    match done {
        Ok(()) => Ok(words),
        Err(error) => Err(error),
    }
}

/// Reads the first `count` words of a namespace.
fn read_words<S: ImageSource>(
    alloc: Global,
    images: &mut S,
    extent: &SetExtent<'_>,
    count: usize,
) -> Result<Result<Vec<u64>, AllocError>, Failed>
    requires inside { 8 * count ≤ raw_bytes extent.now }
    requires few { raw_bytes extent.now ≤ 2 ^ 55 }
    requires there { HasEnds (S.held images.old) extent.now.set }
    ensures count { IfOk result (λ read. IfOk read (λ words. length words.items ≡ count)) }
    ensures told { (contents : List (List ℕ)) → Reveals (S.held images.old) extent.now.set contents → IfOk result (λ read. IfOk read (λ words. IsFront words.items (words_by extent.now contents))) }
    ensures same { S.held images.new ≡ S.held images.old }
    ensures cause { HasCause (S.faults images.old) (S.faults images.new) result }
{
    let Ok(mut words) = Vec::with_capacity(alloc, count) else {
        return Ok(Err(AllocError));
    };
    let Ok(mut room) = vec![in alloc; 0; PIECE] else {
        return Ok(Err(AllocError));
    };
    let done = read_pieces(images, extent, count, room.as_mut_slice(), &mut words)?;
    Ok(words_if(words, done))
}

/// Opens the arenas in the words of a namespace, whose pending moves are made.
fn open_words(alloc: Global, words: Vec<u64>, uuid: &Uuid) -> Result<Chain, ChainRefused>
    requires pages { length words.items % 512 ≡ 0 }
    requires few { length words.items ≤ 2 ^ 52 }
    ensures { HasMemory result → result ≡ opened_view words.items uuid.now }
{
    if words.len() == 0 {
        return Err(ChainRefused {
            arena: 0,
            fault: OpenRefused::Info(InfoFault::Signature),
        });
    }
    let Ok(mut space) = CutWords::new(alloc, words) else {
        return Err(ChainRefused {
            arena: 0,
            fault: OpenRefused::OutOfMemory,
        });
    };
    let mut fuse = Fuse::none();
    open_chain(
        alloc,
        &mut space,
        &mut fuse,
        first_arena(&Mode::Sector),
        uuid,
    )
}

/// Opens the arenas in words that were read, unless memory ran out.
fn open_read(
    alloc: Global,
    read: Result<Vec<u64>, AllocError>,
    uuid: &Uuid,
) -> Result<Chain, ChainRefused>
    requires pages { IfOk read (λ words. length words.items % 512 ≡ 0) }
    requires few { IfOk read (λ words. length words.items ≤ 2 ^ 52) }
    ensures opened { IfOk read (λ words. HasMemory result → result ≡ opened_view words.items uuid.now) }
    ensures memory { is_err read ≡ true → result ≡ Err (wants_memory 0) }
{
    match read {
        Ok(words) => open_words(alloc, words, uuid),
        Err(_) => Err(ChainRefused {
            arena: 0,
            fault: OpenRefused::OutOfMemory,
        }),
    }
}

/// Loads arenas of a namespace of sectors: reads their words from the source, and opens them in memory with their pending moves
/// made. Of the namespace no more than the words up to the end of the last of them is read. While an arena is opened, its words
/// are in memory twice.
///
/// The arenas are all of the namespace, as `read_arenas_from` returned them for its extent. If the source reveals its contents,
/// these must reach the end of each mapping of the set.
///
/// `told`: unless memory runs out, the states are those of these arenas in the words that the source reveals. A source that
/// reveals nothing may have changed since the arenas were read: then they are those that it has now, or a refusal names the first
/// that isn't opened (`refused`). Whatever it reveals, the states that are returned are sound, and were opened in no more words
/// than the namespace has. `Failed` means that the source's count of failures rose.
pub fn load_arenas<S: ImageSource>(
    alloc: Global,
    images: &mut S,
    extent: &SetExtent<'_>,
    arenas: &[ArenaRead],
    uuid: &Uuid,
) -> Result<Result<Chain, ChainRefused>, Failed>
    requires sized { AreSized arenas.now }
    requires within { AreWithin (raw_bytes extent.now) arenas.now }
    requires pages { raw_bytes extent.now % 4096 ≡ 0 }
    requires few { raw_bytes extent.now ≤ 2 ^ 55 }
    requires there { HasEnds (S.held images.old) extent.now.set }
    ensures told { (contents : List (List ℕ)) → Reveals (S.held images.old) extent.now.set contents → AreAll (words_by extent.now contents) uuid.now arenas.now → IfOk result (λ loaded. HasMemory loaded → loaded ≡ Ok (map (state_at (words_by extent.now contents)) arenas.now)) }
    ensures refused { IfOk result (λ loaded. (words : List ℕ) × (8 * length words ≤ raw_bytes extent.now) × (HasMemory loaded → loaded ≡ opened_view words uuid.now)) }
    ensures same { S.held images.new ≡ S.held images.old }
    ensures cause { HasCause (S.faults images.old) (S.faults images.new) result }
{
    let count = end_of_all(arenas).div_ceil(512) * 512;
    let read = read_words(alloc, images, extent, count as usize)?;
    Ok(open_read(alloc, read, uuid))
}
