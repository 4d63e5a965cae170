//! The words that the format of an arena writes, as bytes.
ghost use Rattle.std.specs.Prelude.{◌≡◌, ◌+◌, ◌*◌, ◌/◌, ◌^◌, ◌<◌, ◌≤◌, IfOk, length, slice_index, take};
ghost use Rattle.cut_words.specs.WordBytes.{bytes_of, words_in};
ghost use Rattle.arena_layout.specs.Layout.{IsLayout};
ghost use Rattle.nvd_words.specs.Bytes.{AreBytes};
ghost use Rattle.arena_layout.specs.Info.{IsInfo};
ghost use Rattle.arena_open.specs.Areas.{new_entry, new_group_word, new_info, new_log_word, new_map_word};
ghost use Rattle.arena_open.specs.Format.{log_count, map_count};
ghost use Rattle.format_patch.specs.Cut.{IsBlock};
ghost use Rattle.format_patch.specs.Format.{count_behind, words_behind};

use arena_layout::{Info, Layout, write_info};
use map_table::zero;
use nvd_words::word_at;
use std::alloc::{AllocError, Global};
use uuid::Uuid;

/// The map entry of a sector: it reads as zeros and has the block of its own number. None is behind the last sector's.
fn new_entry(external: u32, sector: u64) -> u32
    requires { external ≤ 2 ^ 30 }
    ensures { result ≡ new_entry external sector }
{
    if sector < u64::from(external) {
        zero(sector as u32)
    } else {
        0
    }
}

/// Word i of the map.
fn map_word(external: u32, i: u64) -> u64
    requires external { external ≤ 2 ^ 30 }
    requires few { i < 2 ^ 60 }
    ensures { result ≡ new_map_word external i }
{
    let low = new_entry(external, 2 * i);
    let high = new_entry(external, 2 * i + 1);
    u64::from(low) + (u64::from(high) << 32)
}

/// Word k of a lane's group in the log.
fn group_word(external: u32, lane: u64, k: u64) -> u64
    requires external { external ≤ 2 ^ 30 }
    requires lane { lane < 256 }
    ensures { result ≡ new_group_word external lane k }
{
    let block = u64::from(external) + lane;
    match k {
        0 => lane + (block << 32),
        1 => block + (1 << 32),
        _ => 0,
    }
}

/// Word j of the log.
fn log_word(layout: &Layout, j: u64) -> u64
    requires { IsLayout layout.now }
    ensures { result ≡ new_log_word layout.now.external layout.now.lanes j }
{
    if j / 8 < u64::from(layout.lanes) {
        group_word(layout.external, j / 8, j % 8)
    } else {
        0
    }
}

/// Word i of the map, the log and the backup of the info block, one behind the other.
fn word_behind(layout: &Layout, block: &[u8; 4096], i: u64) -> u64
    requires layout { IsLayout layout.now }
    requires inside { i < count_behind layout.now }
    requires block { length block.now ≡ 4096 }
    ensures { result ≡ slice_index (words_behind layout.now (words_in block.now)) i }
{
    let map = (layout.flog_off - layout.map_off) / 8;
    let log = (layout.info_off - layout.flog_off) / 8;
    if i < map {
        map_word(layout.external, i)
    } else if i < map + log {
        log_word(layout, i - map)
    } else {
        word_at(block, 8 * (i - map - log) as usize)
    }
}

/// The bytes of the first words of the map, the log and the backup of the info block, one behind the other.
pub(crate) fn bytes_behind(
    alloc: Global,
    layout: &Layout,
    block: &[u8; 4096],
    count: u64,
) -> Result<Vec<u8>, AllocError>
    requires layout { IsLayout layout.now }
    requires block { length block.now ≡ 4096 }
    requires few { count ≤ count_behind layout.now }
    ensures { IfOk result (λ bytes. bytes.items ≡ bytes_of (take count (words_behind layout.now (words_in block.now)))) }
{
    let mut bytes = Vec::new(alloc);
    for i in 0..count {
        let word = word_behind(layout, block, i);
        bytes.extend_from_slice(&word.to_le_bytes())?;
    }
    Ok(bytes)
}

/// The bytes of the first words of an info block.
pub(crate) fn block_bytes(
    alloc: Global,
    block: &[u8; 4096],
    count: u64,
) -> Result<Vec<u8>, AllocError>
    requires block { length block.now ≡ 4096 }
    requires few { count ≤ 512 }
    ensures { IfOk result (λ bytes. bytes.items ≡ bytes_of (take count (words_in block.now))) }
{
    let mut bytes = Vec::new(alloc);
    for i in 0..count {
        let word = word_at(block, 8 * i as usize);
        bytes.extend_from_slice(&word.to_le_bytes())?;
    }
    Ok(bytes)
}

/// The info of a new arena that is its own parent.
fn new_info(layout: &Layout, uuid: &Uuid) -> Info
    requires { IsLayout layout.now }
    ensures info { result ≡ new_info layout.now uuid.now uuid.now }
    ensures sound { IsInfo result }
{
    Info {
        uuid: *uuid,
        parent: *uuid,
        flags: 0,
        major: 2,
        minor: 0,
        next: 0,
        layout: *layout,
    }
}

/// What the types say, as clauses. Nothing is done here: `prove!` costs nothing when it runs.
fn know_bytes(block: &[u8; 4096])
    ensures count { length block.now ≡ 4096 }
    ensures fit { AreBytes block.now }
{
    prove!(block[0] <= u8::MAX);
}

fn know_uuid(uuid: &Uuid)
    ensures { length uuid.now ≡ 16 }
{
    let bytes = uuid.as_bytes();
    prove!(bytes[0] <= u8::MAX);
}

/// The info block of a new arena that is its own parent.
pub(crate) fn new_block(layout: &Layout, uuid: &Uuid) -> [u8; 4096]
    requires { IsLayout layout.now }
    ensures { IsBlock layout.now uuid.now result }
{
    know_uuid(uuid);
    let info = new_info(layout, uuid);
    let mut bytes = [0; 4096];
    write_info(&mut bytes, &info);
    know_bytes(&bytes);
    bytes
}
