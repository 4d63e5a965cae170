//! Bad words of the map and of blocks.
ghost use Rattle.std.specs.Prelude.{◌≡◌, ◌+◌, ◌*◌, ◌/◌, ◌^◌, ◌<◌, ◌≤◌, ℕ, false};
ghost use Rattle.std.specs.List.{list_any, range_with_len};
ghost use Rattle.arena_layout.specs.Layout.{IsLayout};
ghost use Rattle.arena_check.specs.Check.{has_bad_word, in_arena};
ghost use Rattle.arena_rescue.specs.Rescue.{is_known};
ghost use Rattle.arena_rescue.specs.Counting.{are_sound};

use arena_check::BadWords;
use arena_layout::Layout;

/// A namespace without bad words.
#[derive(Drop)]
pub(crate) struct NoneBad;

impl BadWords for NoneBad {
    ghost bad = { λ words i. false };

    fn is_bad(&self, _i: u64) -> bool {
        false
    }

    fn any_bad(&self, _first: u64, _count: u64) -> bool {
        false
    }
}

/// Returns whether the map word of a sector isn't bad.
pub(crate) fn is_known<B: BadWords>(layout: &Layout, bad: &B, at: u64, sector: u32) -> bool
    requires layout { IsLayout layout.now }
    requires inside { at + layout.now.size / 8 ≤ 2 ^ 61 }
    requires sector { sector < layout.now.external }
    ensures { result ≡ is_known layout.now (in_arena at (B.bad bad.now)) sector }
{
    !bad.is_bad(at + (layout.map_off / 8 + u64::from(sector) / 2))
}

/// Returns whether no word of the map area and of the data area is bad.
pub(crate) fn are_sound<B: BadWords>(layout: &Layout, bad: &B, at: u64) -> bool
    requires layout { IsLayout layout.now }
    requires inside { at + layout.now.size / 8 ≤ 2 ^ 61 }
    ensures { result ≡ are_sound layout.now (B.bad bad.now) at }
{
    let blocks = u64::from(layout.internal) * (u64::from(layout.inner) / 8);
    let entries = (u64::from(layout.external) + 1) / 2;
    !bad.any_bad(at + layout.data_off / 8, blocks) && !bad.any_bad(at + layout.map_off / 8, entries)
}
