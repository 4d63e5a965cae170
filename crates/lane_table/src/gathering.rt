//! Takes the lanes back, and returns the words of the table.
ghost use Rattle.std.specs.Prelude.{◌≡◌, ◌+◌, ◌*◌, ◌<◌, ◌≤◌, ◌^◌, [], length, map, take, drop, All, vec_capacity};
ghost use Rattle.std.specs.Mem.Slots.{slots_items, slots_len, IsFull};
ghost use Rattle.lane_table.specs.Kits.{kit_in, owned_in, all_loose};
ghost use Rattle.lane_table.specs.Law.{keeper};

use crate::kinds::{JoinSeat, KeeperComes};
use crate::lanes::{Kit, LaneEnd};
use crate::log::{LaneLog, LoggedCall};
use crate::table::{Call, LaneSeat, Words};
use atomic_table::Closed;
use std::alloc::Global;

/// A seat that knows what the lanes' seats knew, and their logs in the order in which they were
/// handed in.
pub(crate) fn gather(
    shared: &Words,
    ends: Vec<LaneEnd>,
    logs: &mut Vec<Vec<LoggedCall>>,
) -> LaneSeat
    requires table { 0 < shared.now.table_id.words }
    requires ends { All (λ e. (kit_in e).seat.table_id ≡ shared.now.table_id) ends.items }
    requires room { (logs.old.items ≡ []) × (length ends.items ≤ vec_capacity logs.old) }
    ensures table { result.table_id ≡ shared.now.table_id }
    ensures known { result.me ≡ (keeper (map (λ e. owned_in (kit_in e)) ends.items) (all_loose ends.items), []) }
    ensures logs { logs.new.items ≡ map (λ e. (kit_in e).log.calls) ends.items }
{
    let (_, mut host) = shared.load_new_seat::<KeeperComes>(0);
    for end in ends {
        let Kit {
            seat,
            number: _,
            made: _,
            fuse: _,
            log,
        } = end.into_kit();
        shared.join_seat::<JoinSeat>(&mut host, seat);
        let LaneLog { calls, spare: _ } = log;
        logs.push_reserved(calls);
    }
    host
}

/// Copies this many words of a closed table, from a first one on.
pub(crate) fn copy_words(
    closed: &Closed<Call, Global>,
    first: usize,
    count: usize,
    words: &mut Vec<u64>,
)
    requires full { IsFull closed.now.words }
    requires there { (first + count ≤ length (slots_items closed.now.words)) × (first + count ≤ slots_len closed.now.words) × (first + count < 2 ^ 60) }
    requires room { (words.old.items ≡ []) × (count ≤ vec_capacity words.old) }
    ensures { words.new.items ≡ take count (drop first (slots_items closed.now.words)) }
{
    for i in 0..count {
        words.push_reserved(closed.word(first + i));
    }
}
