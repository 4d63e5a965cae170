//! A format is put into contents while they are copied, as far as a power cut lets it come.
ghost use Rattle.std.specs.Prelude.{◌≡◌, ◌+◌, ◌*◌, ◌/◌, ◌%◌, ◌<◌, ◌≤◌, IfOk, length};
ghost use Rattle.interleave.specs.Places.{unit_of};
ghost use Rattle.interleave.specs.Sound.{span_of};
ghost use Rattle.arena_layout.specs.Layout.{IsLayout};
ghost use Rattle.arena_open.specs.Format.{format_count};
ghost use Rattle.format_patch.specs.Cut.{AreFormatPatch, AsksFor};
ghost use Rattle.format_patch.specs.Format.{count_behind, place_of_write};

use crate::area_words::{block_bytes, bytes_behind, new_block};
use arena_layout::Layout;
use interleave::InterleaveSet;
use namespace_bytes::{NewBytes, Run, SetPatch};
use nvd_media::Chooser;
use nvd_words::Items;
use power_cut::SetExtent;
use std::alloc::{AllocError, Global};
use uuid::Uuid;

/// How many words the format of an arena writes before the info block, which comes last.
fn count_behind(layout: &Layout) -> u64
    requires { IsLayout layout.now }
    ensures { result ≡ count_behind layout.now }
{
    let map = (layout.flog_off - layout.map_off) / 8;
    let log = (layout.info_off - layout.flog_off) / 8;
    map + log + 512
}

/// The place in the arena of word i of the format's order.
fn place_of_write(layout: &Layout, i: u64) -> u64
    requires layout { IsLayout layout.now }
    requires inside { i < count_behind layout.now + 512 }
    ensures place { result ≡ place_of_write layout.now i }
    ensures inside { result < layout.now.size / 8 }
{
    let behind = count_behind(layout);
    if i < behind {
        layout.map_off / 8 + i
    } else {
        i - behind
    }
}

/// Returns how many words of a format are there after a crash that follows `steps` of its steps. If a word is pending, the
/// chooser is asked once, by the word's number in its module, and `true` means that it is there.
///
/// The namespace has `raw` bytes from `offset` on in each mapping of the set, and the arena begins with its first word.
pub fn words_left<C: Chooser>(
    set: &InterleaveSet,
    offset: u64,
    raw: u64,
    layout: &Layout,
    steps: u64,
    choose: &mut C,
) -> u64
    requires from { offset % unit_of set.now ≡ 0 }
    requires to { raw % unit_of set.now ≡ 0 }
    requires inside { offset + raw ≤ span_of set.now }
    requires layout { IsLayout layout.now }
    requires room { layout.now.size ≤ length set.now * raw }
    requires few { steps ≤ format_count layout.now }
    ensures asks { AsksFor C.picks set.now offset layout.now steps result choose.old choose.new }
    ensures few { result ≤ count_behind layout.now + 512 }
{
    let words = steps / 2;
    if steps % 2 == 0 {
        return words;
    }
    let extent = SetExtent::of(set, offset, raw);
    let (_module, word) = extent.locate(place_of_write(layout, words));
    if choose.pick(word) { words + 1 } else { words }
}

/// Returns the patch that puts the first `words` words of the format of an arena, in its order, into contents while they are
/// copied. The arena is its own parent.
///
/// The namespace has `raw` bytes from `offset` on in each mapping of the set, and the arena begins with its first word. The
/// call allocates 8 bytes a word. It fails only if memory runs out.
pub fn format_patch(
    alloc: Global,
    set: InterleaveSet,
    offset: u64,
    raw: u64,
    layout: &Layout,
    uuid: &Uuid,
    words: u64,
) -> Result<SetPatch, AllocError>
    requires from { offset % unit_of set ≡ 0 }
    requires to { raw % unit_of set ≡ 0 }
    requires inside { offset + raw ≤ span_of set }
    requires layout { IsLayout layout.now }
    requires room { layout.now.size ≤ length set * raw }
    requires few { words ≤ count_behind layout.now + 512 }
    ensures { IfOk result (AreFormatPatch set offset raw layout.now uuid.now words) }
{
    // Its clause says where the namespace lies, whatever the contents are.
    let _extent = SetExtent::of(&set, offset, raw);
    let block = new_block(layout, uuid);
    let behind = count_behind(layout);
    let map = Run {
        first: layout.map_off,
        bytes: Items::from_vec(bytes_behind(alloc, layout, &block, words.min(behind))?),
    };
    let info = Run {
        first: 0,
        bytes: Items::from_vec(block_bytes(alloc, &block, words.saturating_sub(behind))?),
    };
    let mut runs = Vec::new(alloc);
    runs.push(map)?;
    runs.push(info)?;
    let bytes = NewBytes::Runs(Items::from_vec(runs));
    SetPatch::one(alloc, set, offset, raw, bytes)
}
