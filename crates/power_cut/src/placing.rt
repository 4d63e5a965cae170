//! Putting the words of arenas at their places in the contents.
ghost use Rattle.std.specs.Prelude.{◌≡◌, length};
ghost use Rattle.std.specs.List.{All};
ghost use Rattle.power_cut.specs.Placing.{HasRoom, IsRoom, put_arenas as put_all, put_run as put_at_place, put_runs};

use crate::leaving::{ArenaLeft, Place};
use nvd_words::Items;
use std::alloc::Global;
use std::mem;

/// Puts words at a place of the modules' rows. It takes no memory.
fn put_run(alloc: Global, rows: &mut Vec<Items<u64>>, place: Place, words: &[u64])
    requires { IsRoom rows.old.items (length words.now) place }
    ensures { rows.new.items ≡ put_at_place rows.old.items place words.now }
{
    let first = (place.address / 8) as usize;
    let row = &mut rows[place.module as usize];
    let mut words_there = mem::replace(row, Items::new(alloc)).into_vec();
    words_there[first..first + words.len()].copy_from_slice(words);
    *row = Items::from_vec(words_there);
}

/// Puts the words of an arena at its places.
fn put_arena(alloc: Global, rows: &mut Vec<Items<u64>>, arena: ArenaLeft)
    requires { HasRoom rows.old.items arena }
    ensures { rows.new.items ≡ put_runs arena.run arena.words arena.places rows.old.items }
{
    let ArenaLeft { words, places, run } = arena;
    let mut rest = words.as_slice();
    for place in places.into_vec() {
        let (first, others) = rest.split_at(run as usize);
        put_run(alloc, rows, place, first);
        rest = others;
    }
}

/// Returns the rows of the modules with the words of arenas at their places.
pub fn put_arenas(
    alloc: Global,
    rows: Items<Items<u64>>,
    arenas: Vec<ArenaLeft>,
) -> Items<Items<u64>>
    requires { All (HasRoom rows) arenas.items }
    ensures { result ≡ put_all arenas.items rows }
{
    let mut rows = rows.into_vec();
    for arena in arenas {
        put_arena(alloc, &mut rows, arena);
    }
    Items::from_vec(rows)
}
