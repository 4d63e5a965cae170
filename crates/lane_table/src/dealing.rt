//! Deals the lanes their seats.
ghost use Rattle.std.specs.Prelude.{◌≡◌, ◌<◌, false, [], length, IfOk};
ghost use Rattle.lane_table.specs.Begun.{IsBegun, IsNew, AreFresh};
ghost use Rattle.lane_table.specs.Law.{first};

use crate::fuse::Fuse;
use crate::kinds::SplitSeat;
use crate::lanes::{Kit, Lane};
use crate::log::LaneLog;
use crate::pieces::Mine;
use crate::table::{LaneSeat, Words};
use arena_open::LaneState;
use std::alloc::{AllocError, Global};

/// A lane with its seat, as the arena was opened.
pub(crate) fn seated(alloc: Global, seat: LaneSeat, number: u32, state: LaneState) -> Lane
    requires { IsNew number state seat.me }
    ensures seat { result.kit.seat ≡ seat }
    ensures number { result.kit.number ≡ number }
    ensures made { result.kit.made ≡ 0 }
    ensures fuse { result.kit.fuse.set ≡ false }
{
    Lane {
        kit: Kit {
            seat,
            number,
            made: 0,
            fuse: Fuse::of(None),
            log: LaneLog::new(alloc),
        },
        mine: Mine {
            number,
            block: state.free,
            side: state.group.side,
            seq: state.group.half.seq,
        },
    }
}

/// Each lane with its seat, in the order of their numbers.
pub(crate) fn deal(
    alloc: Global,
    shared: &Words,
    dealer: &mut LaneSeat,
    states: &[LaneState],
) -> Result<Vec<Lane>, AllocError>
    requires table { (dealer.old.table_id ≡ shared.now.table_id) × (0 < shared.now.table_id.words) }
    requires arena { IsBegun shared.now.key }
    requires lanes { states.now ≡ shared.now.key.lanes.value }
    requires begins { dealer.old.me ≡ (first shared.now.key, []) }
    ensures { IfOk result (λ v. AreFresh shared.now.table_id shared.now.key v.items) }
{
    let mut lanes = Vec::new(alloc);
    for (number, state) in states.iter().enumerate() {
        let seat = shared.split_seat::<SplitSeat>(dealer);
        lanes.push(seated(alloc, seat, number as u32, *state))?;
    }
    Ok(lanes)
}
