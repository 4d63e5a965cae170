ghost use Rattle.std.specs.Prelude.{◌≡◌, ◌*◌, ◌+◌, ◌≤◌, ◌%◌, length};
ghost use Rattle.std.specs.List.{All};
ghost use Rattle.arena_open.specs.Chain.{HasMemory};
ghost use Rattle.image_set.specs.Sound.{IsContents};
ghost use Rattle.sector_namespaces.specs.View.{IsUsable, LiesOn, opened_view, view_words};

use arena_layout::InfoFault;
use arena_open::{ChainRefused, OpenRefused, ReadChain, read_chain};
use cut_words::{CutWords, WordSpace};
use interleave::InterleaveSet;
use label_codec::Mode;
use namespace_areas::{Found, first_arena};
use nvd_words::Items;
use power_cut::SetWords;
use std::alloc::Global;
use uuid::Uuid;

/// A namespace without words has no info block.
pub(crate) fn no_block() -> ChainRefused
    ensures { result ≡ record { arena = 0; fault = OpenRefused.Info InfoFault.Signature } }
{
    ChainRefused {
        arena: 0,
        fault: OpenRefused::Info(InfoFault::Signature),
    }
}

/// Opens the arenas of a sector namespace that was found, with power that stays on, to read its sectors. They are read
/// in place: pending moves are completed in the maps in memory, and no word is copied.
///
/// `set` is the interleave set of the namespace's region, `contents` are those of all modules by number, and the UUID is
/// the namespace's. A refusal names the first arena that isn't opened; `OutOfMemory` may come in place of any answer.
pub fn open_sectors<'a>(
    alloc: Global,
    set: &'a InterleaveSet,
    found: &Found,
    contents: Items<CutWords>,
    uuid: &Uuid,
) -> Result<ReadChain<SetWords<'a>>, ChainRefused>
    requires lies { LiesOn set.now found.now }
    requires sector { found.now.mode ≡ Mode.Sector }
    requires rows { All IsContents contents }
    requires usable { IsUsable set.now contents }
    ensures { HasMemory result → result ≡ opened_view (view_words set.now found.now contents) uuid.now }
{
    let _few = set.ways();
    let space = SetWords::of(set, found.offset, found.raw, contents.into_vec());
    if space.count() == 0 {
        return Err(no_block());
    }
    read_chain(alloc, space, first_arena(&found.mode), uuid)
}
