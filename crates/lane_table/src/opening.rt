//! Makes a table of an arena.
ghost use Rattle.std.specs.Prelude.{◌≡◌, ◌<◌, ◌+◌, ◌^◌, ◌++◌, [], length, replicate, All, IfOk};
ghost use Rattle.arena_open.specs.Moves.{IsOpenState};
ghost use Rattle.lane_core.specs.Places.{reader_words};
ghost use Rattle.lane_table.specs.Begun.{row_of, IsMadeOf, IsOpenArena, AreFresh};
ghost use Rattle.lane_table.specs.Kits.{arena_id, held_in, IsOf};
ghost use Rattle.lane_table.specs.Law.{words_of};

use crate::arena::Arena;
use crate::dealing::deal;
use crate::lanes::Lane;
use crate::table::{Key, WordTable};
use arena_open::{ArenaState, LaneState};
use lane_core::{Shape, reader_words};
use nvd_words::Items;
use std::alloc::{AllocError, Global};
use std::snapshot::Snapshot;

/// The words of a table: the arena's as they are seen, the same as they are kept, and zeros for the
/// reader words and the locks.
pub(crate) fn row(alloc: Global, words: &[u64], lanes: u32) -> Result<Vec<u64>, AllocError>
    requires few { (length words.now < 2 ^ 40) × (lanes < 2 ^ 31) }
    ensures { IfOk result (λ v. v.items ≡ words.now ++ words.now ++ replicate (reader_words lanes + lanes) 0) }
{
    let mut row = Vec::new(alloc);
    row.extend_from_slice(words)?;
    row.extend_from_slice(words)?;
    let free = (reader_words(lanes) + u64::from(lanes)) as usize;
    let zeros: Vec<u64> = vec![in alloc; 0; free]?;
    row.extend_from_slice(zeros.as_slice())?;
    Ok(row)
}

/// The arena of this shape with these words, and its lanes.
fn arena_of(
    alloc: Global,
    shape: Shape,
    words: &Items<u64>,
    states: &Items<LaneState>,
) -> Result<(Arena, Vec<Lane>), AllocError>
    requires { IsOpenArena shape words.now states.now }
    ensures shape { IfOk result (λ r. (r.0.shape ≡ shape) × (words_of r.0.table.shared.key ≡ words.now) × (r.0.table.shared.key.lanes.value ≡ states.now)) }
    ensures lanes { IfOk result (λ r. AreFresh (arena_id r.0) r.0.table.shared.key r.1.items) }
    ensures own { IfOk result (λ r. All (λ l. IsOf r.0 l.kit) r.1.items) }
    ensures free { IfOk result (λ r. All (λ l. (held_in l.kit ≡ []) × (l.kit.made ≡ 0)) r.1.items) }
{
    let key = Key {
        shape,
        words: Snapshot::of(words),
        lanes: Snapshot::of(states),
    };
    let first = row(alloc, words.as_slice(), shape.lanes)?;
    let (table, mut dealer) = WordTable::of_words(alloc, first.as_slice(), &key)?;
    let lanes = deal(alloc, &table.shared, &mut dealer, states.as_slice())?;
    Ok((Arena { table, shape }, lanes))
}

impl Arena {
    /// An opened arena on words that its lanes share, and its lanes in the order of their numbers,
    /// each with its seat. No lane has a pass, and none has made one. The only refusal is out of
    /// memory.
    ///
    /// Condition: `open_arena` returned this state.
    pub fn of(alloc: Global, state: ArenaState) -> Result<(Arena, Vec<Lane>), AllocError>
        requires state { IsOpenState state }
        ensures arena { IfOk result (λ r. IsMadeOf state r.0) }
        ensures lanes { IfOk result (λ r. AreFresh (arena_id r.0) r.0.table.shared.key r.1.items) }
        ensures own { IfOk result (λ r. All (λ l. IsOf r.0 l.kit) r.1.items) }
        ensures free { IfOk result (λ r. All (λ l. (held_in l.kit ≡ []) × (l.kit.made ≡ 0)) r.1.items) }
    {
        let shape = Shape::of(&state.info.layout);
        arena_of(alloc, shape, &state.words, &state.lanes)
    }
}
