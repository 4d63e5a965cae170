//! The arenas of a namespace are read from a source, without the other contents.
ghost use Rattle.std.specs.Prelude.{◌≡◌, ◌≢◌, ℕ, ◌+◌, ◌-◌, ◌*◌, ◌/◌, ◌%◌, ◌^◌, ◌<◌, ◌≤◌, IfOk, OnOk, None, Ok, Err, List, length, map, drop};
ghost use Rattle.std.specs.List.{range_with_len};
ghost use Rattle.nvd_words.specs.Checks.{Answers};
ghost use Rattle.nvd_media.specs.Causes.{HasCause};
ghost use Rattle.arena_layout.specs.Info.{IsArenaOf, info_reading};
ghost use Rattle.arena_layout.specs.Layout.{IsLayout};
ghost use Rattle.arena_open.specs.Chain.{chain_answer, state_at};
ghost use Rattle.arena_open.specs.Halves.{AreInRange};
ghost use Rattle.arena_open.specs.Places.{log_word, group_words, value_at};
ghost use Rattle.arena_open.specs.Reading.{entry_at, groups_in, info_bytes, map_in, opening};
ghost use Rattle.interleave.specs.Places.{unit_of};
ghost use Rattle.interleave.specs.Sound.{span_of};
ghost use Rattle.sector_namespaces.specs.Changing.{IsFinding};
ghost use Rattle.sector_namespaces.specs.View.{opened_view, rows_of};
ghost use Rattle.power_cut.specs.Namespace.{over, raw_bytes, words_of};
ghost use Rattle.namespace_bytes.specs.Putting.{AreAll, Linked};
ghost use Rattle.namespace_bytes.specs.Patching.{bytes_by_place};
ghost use Rattle.namespace_bytes.specs.SectorBytes.{HaveMapsOfBytes};
ghost use Rattle.namespace_bytes.specs.SectorPut.{AreSized, HasBlocks};
ghost use Rattle.namespace_words.specs.Source.{AreBytesFrom, AreBytesOf, AreWithin, HasEnds, IsMapOfBytes, Reveals, bytes_by, sizes_of, words_by};

use crate::arena_read::ArenaRead;
use crate::extent::read_extent;
use arena_layout::{Info, InfoFault, Layout, read_info};
use arena_open::{ChainRefused, OpenRefused, Opened, decode_arena};
use flog::{Group, read_group};
use interleave::InterleaveSet;
use label_codec::Mode;
use map_table::entry_in;
use namespace_areas::first_arena;
use nvd_media::{Failed, ImageSource};
use nvd_words::{Items, word_at};
use power_cut::SetExtent;
use std::alloc::{AllocError, Global};
use uuid::Uuid;

/// Reads the info block of the arena whose first word is `at`.
fn read_info_at<S: ImageSource>(
    images: &mut S,
    extent: &SetExtent<'_>,
    at: u64,
    parent: &Uuid,
) -> Result<Result<Info, InfoFault>, Failed>
    requires pages { raw_bytes extent.now % 4096 ≡ 0 }
    requires inside { 8 * at + 4096 ≤ raw_bytes extent.now }
    requires there { HasEnds (S.held images.old) extent.now.set }
    ensures told { (contents : List (List ℕ)) → Reveals (S.held images.old) extent.now.set contents → IfOk result (λ info. info ≡ info_reading (info_bytes (drop at (words_by extent.now contents))) parent.now (8 * length (drop at (words_by extent.now contents)))) }
    ensures sound { IfOk result (λ info. IfOk info (IsArenaOf parent.now (raw_bytes extent.now - 8 * at))) }
    ensures same { S.held images.new ≡ S.held images.old }
    ensures cause { HasCause (S.faults images.old) (S.faults images.new) result }
{
    let rest = extent.bytes() - 8 * at;
    let mut bytes = [0; 4096];
    read_extent(images, extent, 8 * at, &mut bytes)?;
    Ok(read_info(&bytes, parent, rest))
}

/// Returns a word of a lane's group, from the bytes of the log.
fn log_word(log: &[u8], lane: u32, k: usize) -> u64
    requires lane { 64 * lane + 64 ≤ length log.now }
    requires word { k < 8 }
    ensures { (words : List ℕ) (l : Layout) → AreBytesOf words (l.flog_off / 8) log.now → result ≡ value_at l words (log_word lane k) }
{
    word_at(log, 64 * lane as usize + 8 * k)
}

/// Returns the eight words of a lane's group, from the bytes of the log.
pub fn log_group(log: &[u8], lane: u32) -> [u64; 8]
    requires { 64 * lane + 64 ≤ length log.now }
    ensures { (words : List ℕ) (l : Layout) → AreBytesOf words (l.flog_off / 8) log.now → result ≡ group_words l words lane }
{
    [
        log_word(log, lane, 0),
        log_word(log, lane, 1),
        log_word(log, lane, 2),
        log_word(log, lane, 3),
        log_word(log, lane, 4),
        log_word(log, lane, 5),
        log_word(log, lane, 6),
        log_word(log, lane, 7),
    ]
}

/// Returns the current halves of all lanes, from the bytes of the log, or the fault of the first group that violates the format.
pub fn groups_of(alloc: Global, log: &[u8], layout: &Layout) -> Result<Items<Group>, OpenRefused>
    requires { length log.now ≡ 64 * layout.now.lanes }
    ensures told { (words : List ℕ) → AreBytesOf words (layout.now.flog_off / 8) log.now → Answers OpenRefused.OutOfMemory result (groups_in layout.now words) }
    ensures running { result ≢ Err OpenRefused.PowerCut }
{
    let mut groups = Items::new(alloc);
    for lane in 0..layout.lanes {
        match read_group(&log_group(log, lane), layout.external, layout.internal) {
            Ok(group) => {
                if groups.push(group).is_err() {
                    return Err(OpenRefused::OutOfMemory);
                }
            }
            Err(fault) => return Err(OpenRefused::Flog { lane, fault }),
        }
    }
    Ok(groups)
}

/// Reads the current halves of all lanes of the arena whose first word is `at`.
fn read_log<S: ImageSource>(
    alloc: Global,
    images: &mut S,
    extent: &SetExtent<'_>,
    at: u64,
    layout: &Layout,
) -> Result<Result<Items<Group>, OpenRefused>, Failed>
    requires layout { IsLayout layout.now }
    requires few { raw_bytes extent.now ≤ 2 ^ 55 }
    requires inside { 8 * at + layout.now.size ≤ raw_bytes extent.now }
    requires there { HasEnds (S.held images.old) extent.now.set }
    ensures told { (contents : List (List ℕ)) → Reveals (S.held images.old) extent.now.set contents → IfOk result (λ groups. Answers OpenRefused.OutOfMemory groups (groups_in layout.now (drop at (words_by extent.now contents)))) }
    ensures in_range { IfOk result (λ groups. IfOk groups (AreInRange layout.now.external)) }
    ensures lanes { IfOk result (λ groups. IfOk groups (λ groups. (words : List ℕ) × (groups_in layout.now words ≡ Ok groups))) }
    ensures running { IfOk result (λ groups. groups ≢ Err OpenRefused.PowerCut) }
    ensures same { S.held images.new ≡ S.held images.old }
    ensures cause { HasCause (S.faults images.old) (S.faults images.new) result }
{
    let Ok(mut room) = vec![in alloc; 0; 64 * layout.lanes as usize] else {
        return Ok(Err(OpenRefused::OutOfMemory));
    };
    let log = room.as_mut_slice();
    read_extent(images, extent, 8 * at + layout.flog_off, log)?;
    Ok(groups_of(alloc, log, layout))
}

/// Returns the entry of a sector, from bytes of the map that begin with the word of an even sector `first`.
fn map_entry(bytes: &[u8], first: u32, sector: u32) -> u32
    requires even { first % 2 ≡ 0 }
    requires from { first ≤ sector }
    requires long { 8 * ((sector - first) / 2) + 8 ≤ length bytes.now }
    ensures { (words : List ℕ) (l : Layout) → AreBytesOf words (l.map_off / 8 + first / 2) bytes.now → result ≡ entry_at l words sector }
{
    let place = 8 * ((sector - first) / 2) as usize;
    entry_in(word_at(bytes, place), sector)
}

/// Appends the entries of sectors from an even one `first` up to `end` to those of the sectors before, from bytes of the map that
/// begin with the word of `first`.
fn add_entries(bytes: &[u8], first: u32, end: u32, entries: &mut Vec<u32>) -> Result<(), AllocError>
    requires even { first % 2 ≡ 0 }
    requires order { first ≤ end }
    requires long { 8 * ((end - first + 1) / 2) ≤ length bytes.now }
    ensures told { (words : List ℕ) (l : Layout) → AreBytesOf words (l.map_off / 8 + first / 2) bytes.now → entries.old.items ≡ map (entry_at l words) (range_with_len 0 first) → OnOk result (entries.new.items ≡ map (entry_at l words) (range_with_len 0 end)) }
    ensures count { OnOk result (length entries.new.items ≡ length entries.old.items + (end - first)) }
{
    for sector in first..end {
        entries.push(map_entry(bytes, first, sector))?;
    }
    Ok(())
}

/// How many entries of a map are read at a time: 65,536, which are 256 KiB.
const ENTRIES: u32 = 1 << 16;

/// Reads the entries of sectors from an even one `first` up to `end`, and appends them to those of the sectors before. The map
/// begins with byte `start` of the namespace.
fn read_entries<S: ImageSource>(
    images: &mut S,
    extent: &SetExtent<'_>,
    start: u64,
    first: u32,
    end: u32,
    room: &mut [u8],
    entries: &mut Vec<u32>,
) -> Result<Result<(), AllocError>, Failed>
    requires even { first % 2 ≡ 0 }
    requires order { first ≤ end }
    requires last { end ≤ 2 ^ 31 }
    requires room { 8 * ((end - first + 1) / 2) ≤ length room.old }
    requires whole { start % 8 ≡ 0 }
    requires inside { start + 4 * first + 8 * ((end - first + 1) / 2) ≤ raw_bytes extent.now }
    requires few { raw_bytes extent.now ≤ 2 ^ 55 }
    requires there { HasEnds (S.held images.old) extent.now.set }
    ensures told { (contents : List (List ℕ)) → Reveals (S.held images.old) extent.now.set contents → (at : ℕ) (l : Layout) → start ≡ 8 * at + l.map_off → l.map_off % 8 ≡ 0
        → entries.old.items ≡ map (entry_at l (drop at (words_by extent.now contents))) (range_with_len 0 first)
        → IfOk result (λ done. OnOk done (entries.new.items ≡ map (entry_at l (drop at (words_by extent.now contents))) (range_with_len 0 end))) }
    ensures count { IfOk result (λ done. OnOk done (length entries.new.items ≡ length entries.old.items + (end - first))) }
    ensures bytes { (contents : List (List ℕ)) → Reveals (S.held images.old) extent.now.set contents → IfOk result (λ _. AreBytesFrom (bytes_by extent.now contents) (start + 4 * first) (8 * ((end - first + 1) / 2))) }
    ensures room { length room.new ≡ length room.old }
    ensures same { S.held images.new ≡ S.held images.old }
    ensures cause { HasCause (S.faults images.old) (S.faults images.new) result }
{
    let size = 8 * ((end - first + 1) / 2) as usize;
    let piece = &mut room[..size];
    read_extent(images, extent, start + 4 * u64::from(first), piece)?;
    Ok(add_entries(piece, first, end, entries))
}

/// Reads the entries of all sectors of the arena whose first word is `at`, by pieces of the map.
///
/// The arena must lie in the namespace. It fails inside only if memory runs out. `Failed` means that the source's count of failures
/// rose.
pub fn read_map<S: ImageSource>(
    alloc: Global,
    images: &mut S,
    extent: &SetExtent<'_>,
    at: u64,
    layout: &Layout,
) -> Result<Result<Vec<u32>, AllocError>, Failed>
    requires layout { IsLayout layout.now }
    requires few { raw_bytes extent.now ≤ 2 ^ 55 }
    requires inside { 8 * at + layout.now.size ≤ raw_bytes extent.now }
    requires there { HasEnds (S.held images.old) extent.now.set }
    ensures told { (contents : List (List ℕ)) → Reveals (S.held images.old) extent.now.set contents → IfOk result (λ entries. IfOk entries (λ entries. entries.items ≡ map_in layout.now (drop at (words_by extent.now contents)))) }
    ensures count { IfOk result (λ entries. IfOk entries (λ entries. length entries.items ≡ layout.now.external)) }
    ensures bytes { (contents : List (List ℕ)) → Reveals (S.held images.old) extent.now.set contents → IfOk result (λ entries. IfOk entries (λ _. IsMapOfBytes (bytes_by extent.now contents) at layout.now)) }
    ensures same { S.held images.new ≡ S.held images.old }
    ensures cause { HasCause (S.faults images.old) (S.faults images.new) result }
{
    let Ok(mut entries) = Vec::with_capacity(alloc, layout.external as usize) else {
        return Ok(Err(AllocError));
    };
    let Ok(mut room) = vec![in alloc; 0; 4 * ENTRIES as usize] else {
        return Ok(Err(AllocError));
    };
    let piece = room.as_mut_slice();
    let start = 8 * at + layout.map_off;
    let mut first = 0;
    while first < layout.external {
        let end = layout.external.min(first + ENTRIES);
        if read_entries(images, extent, start, first, end, piece, &mut entries)?.is_err() {
            return Ok(Err(AllocError));
        }
        first = end;
    }
    Ok(Ok(entries))
}

/// Reads the arena whose first word is `at`: its info block, its lanes, and its map with the pending moves applied. Nothing else
/// of the namespace is read.
///
/// The 4,096 bytes from word `at` on must lie in the namespace. The arena is refused with the first of Info, Flog (with the least
/// lane) and Block that applies; `OutOfMemory` may replace any answer. `Failed` means that the source's count of failures rose.
fn read_arena_from<S: ImageSource>(
    alloc: Global,
    images: &mut S,
    extent: &SetExtent<'_>,
    at: u64,
    parent: &Uuid,
) -> Result<Result<Opened, OpenRefused>, Failed>
    requires few { raw_bytes extent.now ≤ 2 ^ 55 }
    requires pages { raw_bytes extent.now % 4096 ≡ 0 }
    requires inside { 8 * at + 4096 ≤ raw_bytes extent.now }
    requires there { HasEnds (S.held images.old) extent.now.set }
    ensures told { (contents : List (List ℕ)) → Reveals (S.held images.old) extent.now.set contents → IfOk result (λ opened. Answers OpenRefused.OutOfMemory opened (opening (drop at (words_by extent.now contents)) parent.now)) }
    ensures sound { IfOk result (λ opened. IfOk opened (λ opened. IsArenaOf parent.now (raw_bytes extent.now - 8 * at) opened.info)) }
    ensures running { IfOk result (λ opened. opened ≢ Err OpenRefused.PowerCut) }
    ensures blocks { IfOk result (λ opened. IfOk opened (λ opened. HasBlocks (record { at = at; opened = opened }))) }
    ensures bytes { (contents : List (List ℕ)) → Reveals (S.held images.old) extent.now.set contents → IfOk result (λ opened. IfOk opened (λ opened. IsMapOfBytes (bytes_by extent.now contents) at opened.info.layout)) }
    ensures same { S.held images.new ≡ S.held images.old }
    ensures cause { HasCause (S.faults images.old) (S.faults images.new) result }
{
    let info = match read_info_at(images, extent, at, parent)? {
        Ok(info) => info,
        Err(fault) => return Ok(Err(OpenRefused::Info(fault))),
    };
    let groups = match read_log(alloc, images, extent, at, &info.layout)? {
        Ok(groups) => groups,
        Err(fault) => return Ok(Err(fault)),
    };
    match read_map(alloc, images, extent, at, &info.layout)? {
        Ok(entries) => Ok(decode_arena(alloc, info, groups, entries)),
        Err(_) => Ok(Err(OpenRefused::OutOfMemory)),
    }
}

/// Reads the arenas of a namespace from a source, in order; the first one begins at word `first`.
fn read_chain_from<S: ImageSource>(
    alloc: Global,
    images: &mut S,
    extent: &SetExtent<'_>,
    first: u64,
    parent: &Uuid,
) -> Result<Result<Items<ArenaRead>, ChainRefused>, Failed>
    requires from { first % 512 ≡ 0 }
    requires to { raw_bytes extent.now % 4096 ≡ 0 }
    requires inside { 8 * first < raw_bytes extent.now }
    requires small { raw_bytes extent.now ≤ 2 ^ 55 }
    requires there { HasEnds (S.held images.old) extent.now.set }
    ensures read { (contents : List (List ℕ)) → Reveals (S.held images.old) extent.now.set contents → IfOk result (λ found. IfOk found (λ links. Ok (map (state_at (words_by extent.now contents)) links) ≡ chain_answer None (words_by extent.now contents) parent.now first)) }
    ensures linked { (contents : List (List ℕ)) → Reveals (S.held images.old) extent.now.set contents → IfOk result (λ found. IfOk found (Linked (words_by extent.now contents) parent.now first)) }
    ensures running { IfOk result (λ found. (f : ChainRefused) → found ≡ Err f → f.fault ≢ OpenRefused.PowerCut) }
    ensures sized { IfOk result (λ found. IfOk found AreSized) }
    ensures within { IfOk result (λ found. IfOk found (AreWithin (raw_bytes extent.now))) }
    ensures total { IfOk result (λ found. IfOk found (λ links. sizes_of links ≤ raw_bytes extent.now)) }
    ensures bytes { (contents : List (List ℕ)) → Reveals (S.held images.old) extent.now.set contents → IfOk result (λ found. IfOk found (HaveMapsOfBytes (bytes_by extent.now contents))) }
    ensures refused { (contents : List (List ℕ)) → Reveals (S.held images.old) extent.now.set contents → IfOk result (λ found. (f : ChainRefused) → found ≡ Err f → IsFinding f → chain_answer None (words_by extent.now contents) parent.now first ≡ Err f) }
    ensures same { S.held images.new ≡ S.held images.old }
    ensures cause { HasCause (S.faults images.old) (S.faults images.new) result }
{
    let mut arenas = Vec::new(alloc);
    let mut at = first;
    'arenas: loop {
        let arena = arenas.len() as u32;
        if arenas.reserve(1).is_err() {
            return Ok(Err(ChainRefused {
                arena,
                fault: OpenRefused::OutOfMemory,
            }));
        }
        match read_arena_from(alloc, images, extent, at, parent)? {
            Ok(opened) => {
                let next = opened.info.next;
                arenas.push_reserved(ArenaRead::new(at, opened));
                if next == 0 {
                    return Ok(Ok(Items::from_vec(arenas)));
                }
                at += next / 8;
            }
            Err(fault) => return Ok(Err(ChainRefused { arena, fault })),
        }
    }
}

/// Reads all arenas of a namespace of sectors from a source, in order, as `namespace_bytes::read_arenas` does from its words. Only the info
/// blocks, the logs and the maps are read; of these, one log and one map are in memory beside the answer.
///
/// The namespace has `raw` bytes from the relative address `offset` on in each mapping of the set. Both must be multiples of the
/// set's unit, and the namespace must end inside the mappings and be whole pages. If the source reveals its contents, these must
/// reach the end of each mapping.
///
/// `all`: if the source reveals its contents, these are all arenas in the namespace's words. A refusal names the first arena that
/// isn't opened, but never `PowerCut`, since no word is stored; `OutOfMemory` may come in place of any answer. `bytes`: the numbers of
/// each map are bytes. `sized`, `within`, `total`: whatever the source reveals, the arenas are sound, are no larger than
/// the namespace together, and each lies in it. `Failed` means that the source's count of failures rose.
pub fn read_arenas_from<S: ImageSource>(
    alloc: Global,
    images: &mut S,
    set: &InterleaveSet,
    offset: u64,
    raw: u64,
    uuid: &Uuid,
) -> Result<Result<Items<ArenaRead>, ChainRefused>, Failed>
    requires from { offset % unit_of set.now ≡ 0 }
    requires to { raw % unit_of set.now ≡ 0 }
    requires inside { offset + raw ≤ span_of set.now }
    requires pages { length set.now * raw % 4096 ≡ 0 }
    requires few { length set.now * raw ≤ 2 ^ 55 }
    requires there { HasEnds (S.held images.old) set.now }
    ensures all { (contents : List (List ℕ)) → Reveals (S.held images.old) set.now contents → IfOk result (λ found. IfOk found (AreAll (words_of (over set.now offset raw (rows_of contents))).kept uuid.now)) }
    ensures refused { (contents : List (List ℕ)) → Reveals (S.held images.old) set.now contents → IfOk result (λ found. (f : ChainRefused) → found ≡ Err f → IsFinding f → opened_view (words_of (over set.now offset raw (rows_of contents))).kept uuid.now ≡ Err f) }
    ensures running { IfOk result (λ found. (f : ChainRefused) → found ≡ Err f → f.fault ≢ OpenRefused.PowerCut) }
    ensures sized { IfOk result (λ found. IfOk found AreSized) }
    ensures within { IfOk result (λ found. IfOk found (AreWithin (length set.now * raw))) }
    ensures total { IfOk result (λ found. IfOk found (λ links. sizes_of links ≤ length set.now * raw)) }
    ensures bytes { (contents : List (List ℕ)) → Reveals (S.held images.old) set.now contents → IfOk result (λ found. IfOk found (HaveMapsOfBytes (bytes_by_place set.now offset raw contents))) }
    ensures same { S.held images.new ≡ S.held images.old }
    ensures cause { HasCause (S.faults images.old) (S.faults images.new) result }
{
    let extent = SetExtent::of(set, offset, raw);
    if extent.bytes() == 0 {
        return Ok(Err(ChainRefused {
            arena: 0,
            fault: OpenRefused::Info(InfoFault::Signature),
        }));
    }
    read_chain_from(alloc, images, &extent, first_arena(&Mode::Sector), uuid)
}
