//! Reads the parts of an arena from a space without pending words.
ghost use Rattle.std.specs.Prelude.{◌≡◌, ◌-◌, ◌+◌, ◌*◌, ◌/◌, ◌^◌, ◌<◌, ◌≤◌, ◌++◌, length, take, drop, IfOk};
ghost use Rattle.std.specs.Int.{w64, to_le_bytes};
ghost use Rattle.nvd_words.specs.Checks.{Answers};
ghost use Rattle.arena_layout.specs.Layout.{IsLayout};
ghost use Rattle.arena_layout.specs.Info.{info_reading, IsArenaOf};
ghost use Rattle.flog.specs.Group.{group_reading};
ghost use Rattle.arena_open.specs.Places.{group_words};
ghost use Rattle.arena_open.specs.Writes.{IsSettled};
ghost use Rattle.arena_open.specs.Reading.{info_bytes, entry_at, map_in, groups_in};

use crate::refused::OpenRefused;
use arena_layout::{Info, InfoFault, Layout, read_info};
use cut_words::WordSpace;
use flog::{FlogFault, Group, read_group};
use map_table::entry_in;
use nvd_words::Items;
use std::alloc::{AllocError, Global};
use uuid::Uuid;

/// Stores word k at its place.
fn put_word(bytes: &mut [u8; 4096], k: usize, word: u64)
    requires { k < 512 }
    ensures { take (8 * k + 8) bytes.new ≡ take (8 * k) bytes.old ++ to_le_bytes w64 word }
{
    bytes[8 * k..8 * k + 8].copy_from_slice(&word.to_le_bytes());
}

/// Returns the bytes of an arena's info block.
fn info_bytes<W: WordSpace>(space: &W, at: u64) -> [u8; 4096]
    requires inside { at + 512 ≤ length (W.words space.now).kept }
    requires small { length (W.words space.now).kept < 2 ^ 60 }
    requires settled { IsSettled (W.words space.now) }
    ensures { result ≡ info_bytes (drop at (W.words space.now).kept) }
{
    let mut bytes = [0; 4096];
    for k in 0..512 {
        put_word(&mut bytes, k, space.load(at + k as u64));
    }
    bytes
}

/// Reads the info block.
pub(crate) fn read_first<W: WordSpace>(space: &W, at: u64, parent: &Uuid) -> Result<Info, InfoFault>
    requires inside { at + 512 ≤ length (W.words space.now).kept }
    requires small { length (W.words space.now).kept < 2 ^ 60 }
    requires settled { IsSettled (W.words space.now) }
    ensures info { result ≡ info_reading (info_bytes (drop at (W.words space.now).kept)) parent.now (8 * length (drop at (W.words space.now).kept)) }
    ensures sound { IfOk result (λ info. IsArenaOf parent.now (8 * length (drop at (W.words space.now).kept)) info) }
{
    let rest = 8 * (space.count() - at);
    read_info(&info_bytes(space, at), parent, rest)
}

/// Returns the eight words of a lane's group.
fn group_words<W: WordSpace>(space: &W, at: u64, layout: &Layout, lane: u32) -> [u64; 8]
    requires layout { IsLayout layout.now }
    requires lane { lane < layout.now.lanes }
    requires inside { at + layout.now.size / 8 ≤ length (W.words space.now).kept }
    requires small { length (W.words space.now).kept < 2 ^ 60 }
    requires settled { IsSettled (W.words space.now) }
    ensures { result ≡ group_words layout.now (drop at (W.words space.now).kept) lane }
{
    let first = at + layout.flog_off / 8 + 8 * u64::from(lane);
    [
        space.load(first),
        space.load(first + 1),
        space.load(first + 2),
        space.load(first + 3),
        space.load(first + 4),
        space.load(first + 5),
        space.load(first + 6),
        space.load(first + 7),
    ]
}

/// Reads a lane's current half.
fn read_lane<W: WordSpace>(
    space: &W,
    at: u64,
    layout: &Layout,
    lane: u32,
) -> Result<Group, FlogFault>
    requires layout { IsLayout layout.now }
    requires lane { lane < layout.now.lanes }
    requires inside { at + layout.now.size / 8 ≤ length (W.words space.now).kept }
    requires small { length (W.words space.now).kept < 2 ^ 60 }
    requires settled { IsSettled (W.words space.now) }
    ensures { result ≡ group_reading (group_words layout.now (drop at (W.words space.now).kept) lane) layout.now.external layout.now.internal }
{
    read_group(
        &group_words(space, at, layout, lane),
        layout.external,
        layout.internal,
    )
}

/// Reads the current halves of all lanes, or returns the fault of the first group that violates the
/// format.
pub(crate) fn read_lanes<W: WordSpace>(
    alloc: Global,
    space: &W,
    at: u64,
    layout: &Layout,
) -> Result<Items<Group>, OpenRefused>
    requires layout { IsLayout layout.now }
    requires inside { at + layout.now.size / 8 ≤ length (W.words space.now).kept }
    requires small { length (W.words space.now).kept < 2 ^ 60 }
    requires settled { IsSettled (W.words space.now) }
    ensures { Answers OpenRefused.OutOfMemory result (groups_in layout.now (drop at (W.words space.now).kept)) }
{
    let mut groups = Items::new(alloc);
    for lane in 0..layout.lanes {
        match read_lane(space, at, layout, lane) {
            Ok(group) => {
                if groups.push(group).is_err() {
                    return Err(OpenRefused::OutOfMemory);
                }
            }
            Err(fault) => return Err(OpenRefused::Flog { lane, fault }),
        }
    }
    Ok(groups)
}

/// Returns the entry of a sector.
fn read_entry<W: WordSpace>(space: &W, at: u64, layout: &Layout, sector: u32) -> u32
    requires layout { IsLayout layout.now }
    requires sector { sector < layout.now.external }
    requires inside { at + layout.now.size / 8 ≤ length (W.words space.now).kept }
    requires small { length (W.words space.now).kept < 2 ^ 60 }
    requires settled { IsSettled (W.words space.now) }
    ensures { result ≡ entry_at layout.now (drop at (W.words space.now).kept) sector }
{
    let word = space.load(at + layout.map_off / 8 + u64::from(sector) / 2);
    entry_in(word, sector)
}

/// Returns the entries of all sectors.
pub(crate) fn read_map<W: WordSpace>(
    alloc: Global,
    space: &W,
    at: u64,
    layout: &Layout,
) -> Result<Vec<u32>, AllocError>
    requires layout { IsLayout layout.now }
    requires inside { at + layout.now.size / 8 ≤ length (W.words space.now).kept }
    requires small { length (W.words space.now).kept < 2 ^ 60 }
    requires settled { IsSettled (W.words space.now) }
    ensures { IfOk result (λ entries. entries.items ≡ map_in layout.now (drop at (W.words space.now).kept)) }
{
    let mut entries = Vec::with_capacity(alloc, layout.external as usize)?;
    for sector in 0..layout.external {
        entries.push(read_entry(space, at, layout, sector))?;
    }
    Ok(entries)
}

/// Returns the words of an arena.
pub(crate) fn read_words<W: WordSpace>(
    alloc: Global,
    space: &W,
    at: u64,
    count: u64,
) -> Result<Vec<u64>, AllocError>
    requires inside { at + count ≤ length (W.words space.now).kept }
    requires small { length (W.words space.now).kept < 2 ^ 60 }
    requires settled { IsSettled (W.words space.now) }
    ensures { IfOk result (λ words. words.items ≡ take count (drop at (W.words space.now).kept)) }
{
    let mut words = Vec::with_capacity(alloc, count as usize)?;
    for k in 0..count {
        words.push(space.load(at + k))?;
    }
    Ok(words)
}
