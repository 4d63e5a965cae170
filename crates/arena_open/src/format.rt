ghost use Rattle.std.specs.Prelude.{◌≡◌, ◌+◌, ◌*◌, ◌/◌, ◌^◌, ◌<◌, ◌≤◌, length, drop, is_ok, OnOk};
ghost use Rattle.cut_words.specs.Fuses.{Makes};
ghost use Rattle.cut_words.specs.Words.{settled};
ghost use Rattle.cut_words.specs.WordBytes.{words_in};
ghost use Rattle.arena_layout.specs.Layout.{IsLayout};
ghost use Rattle.nvd_words.specs.Bytes.{AreBytes};
ghost use Rattle.arena_layout.specs.Info.{IsInfo, ReadsBack};
ghost use Rattle.arena_layout.specs.Spelling.{spelling_of};
ghost use Rattle.arena_open.specs.Areas.{new_info};
ghost use Rattle.arena_open.specs.Format.{area_writes, format_steps, format_writes, CanFormat, IsNewArena, KeepsOutside};
ghost use Rattle.arena_open.specs.Writes.{IsSettled, write_steps, written_over};

use crate::area::{InfoBlock, NewLog, NewMap, write_area};
use arena_layout::{Info, Layout, write_info};
use cut_words::{Fuse, PowerCut, WordSpace};
use uuid::Uuid;

/// Returns the info of a new arena: version 2.0, no flags, and no next arena.
fn new_info(layout: &Layout, uuid: &Uuid, parent: &Uuid) -> Info
    requires { IsLayout layout.now }
    ensures info { result ≡ new_info layout.now uuid.now parent.now }
    ensures sound { IsInfo result }
{
    Info {
        uuid: *uuid,
        parent: *parent,
        flags: 0,
        major: 2,
        minor: 0,
        next: 0,
        layout: *layout,
    }
}

/// States the bounds of the type as clauses. It does nothing at run time.
fn know_bytes(block: &[u8; 4096])
    ensures count { length block.now ≡ 4096 }
    ensures fit { AreBytes block.now }
{
    prove!(block[0] <= u8::MAX);
}

/// Returns the info block with this info.
fn info_block(info: &Info) -> InfoBlock
    requires { IsInfo info.now }
    ensures spelling { result.bytes ≡ spelling_of info.now }
    ensures reads { ReadsBack result.bytes info.now }
    ensures count { length result.bytes ≡ 4096 }
    ensures fit { AreBytes result.bytes }
{
    let mut bytes = [0; 4096];
    write_info(&mut bytes, info);
    know_bytes(&bytes);
    InfoBlock { bytes }
}

/// Writes the four areas.
fn write_areas<W: WordSpace>(
    space: &mut W,
    fuse: &mut Fuse,
    at: u64,
    layout: &Layout,
    block: &InfoBlock,
) -> Result<(), PowerCut>
    requires layout { IsLayout layout.now }
    requires inside { at + layout.now.size / 8 ≤ length (W.words space.old).kept }
    requires small { length (W.words space.old).kept < 2 ^ 64 }
    requires block { length (words_in block.now.bytes) ≡ 512 }
    requires settled { IsSettled (W.words space.old) }
    ensures made { Makes (W.words space.old) (W.words space.new) fuse.old fuse.new (write_steps (area_writes at layout.now (words_in block.now.bytes))) (is_ok result) }
    ensures beside { W.beside space.new ≡ W.beside space.old }
{
    let map = NewMap {
        external: layout.external,
        count: (layout.flog_off - layout.map_off) / 8,
    };
    let log = NewLog {
        external: layout.external,
        lanes: layout.lanes,
        count: (layout.info_off - layout.flog_off) / 8,
    };
    write_area(space, fuse, at + layout.map_off / 8, &map)?;
    write_area(space, fuse, at + layout.flog_off / 8, &log)?;
    write_area(space, fuse, at + layout.info_off / 8, block)?;
    write_area(space, fuse, at, block)
}

/// Formats an arena whose first word is `at`: writes its map, its log, the backup of its info
/// block, and its info block, in this order. It stores and flushes each word before the next one.
///
/// The layout relation must hold, the arena (`size` bytes) must lie in the space from word `at` on,
/// and no word of the space may be pending. It returns `PowerCut` exactly if fewer steps are left
/// than two for each word of these areas. Then it has made as many as there were. No other word is
/// stored. After `Ok` no word is pending, and the arena opens: every sector reads as zeros and has
/// the block of its own number, lane l's free block is `external + l`, and no move is pending.
pub fn format_arena<W: WordSpace>(
    space: &mut W,
    fuse: &mut Fuse,
    at: u64,
    layout: &Layout,
    uuid: &Uuid,
    parent: &Uuid,
) -> Result<(), PowerCut>
    requires format { CanFormat at layout.now (W.words space.old) }
    ensures made { Makes (W.words space.old) (W.words space.new) fuse.old fuse.new (format_steps at layout.now uuid.now parent.now) (is_ok result) }
    ensures beside { W.beside space.new ≡ W.beside space.old }
    ensures count { length (W.words space.new).kept ≡ length (W.words space.old).kept }
    ensures outside { KeepsOutside at layout.now (W.words space.old) (W.words space.new) }
    ensures settles { OnOk result (W.words space.new ≡ settled (written_over (W.words space.old).kept (format_writes at layout.now uuid.now parent.now))) }
    ensures opens { OnOk result (IsNewArena layout.now uuid.now parent.now (drop at (W.words space.new).kept)) }
{
    let _count = space.count();
    let block = info_block(&new_info(layout, uuid, parent));
    write_areas(space, fuse, at, layout, &block)
}
