//! The first bad sector of a namespace, by the map entries alone.
ghost use Rattle.std.specs.Prelude.{◌≡◌, ◌<◌, ℕ, IfSome, List, length, map};
ghost use Rattle.arena_open.specs.Chain.{state_at};
ghost use Rattle.namespace_bytes.specs.Bad.{bad_from, bad_in, first_bad, says_bad};
ghost use Rattle.namespace_bytes.specs.Putting.{AreAll};
ghost use Rattle.namespace_bytes.specs.SectorPut.{AreSized};

use map_table::{Kind, entry};
use namespace_words::ArenaRead;

/// Returns whether an entry says that its sector is bad.
fn says_bad(kind: Kind) -> bool
    ensures { result ≡ says_bad «kind» }
{
    match kind {
        Kind::Bad => true,
        Kind::Initial => false,
        Kind::Zero => false,
        Kind::Normal => false,
    }
}

/// Returns the first bad sector of an arena, by its number there.
fn bad_in(arena: &ArenaRead) -> Option<u32>
    requires { length arena.now.opened.entries ≡ arena.now.opened.info.layout.external }
    ensures first { result ≡ bad_in arena.now.opened }
    ensures inside { IfSome result (λ own. own < arena.now.opened.info.layout.external) }
{
    let opened = arena.parts();
    let entries = opened.entries.as_slice();
    for own in 0..opened.info.layout.external {
        if says_bad(entry(entries[own as usize], own).kind) {
            return Some(own);
        }
    }
    None
}

/// Returns the first bad sector of these arenas. No sector is read: the arenas' map entries say it, with all pending moves made.
pub(crate) fn first_bad(arenas: &[ArenaRead]) -> Option<u64>
    requires { AreSized arenas.now }
    ensures { (words uuid : List ℕ) → AreAll words uuid arenas.now → result ≡ first_bad (map (state_at words) arenas.now) }
{
    let mut before = 0;
    for arena in arenas {
        if let Some(own) = bad_in(arena) {
            return Some(before + u64::from(own));
        }
        before += u64::from(arena.parts().info.layout.external);
    }
    None
}
