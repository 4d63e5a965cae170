//! Lanes for many callers: sets of lanes go out to one caller at a time and come back, and power is
//! off for all once one caller switches it off.
//!
//! A **set** has one lane of each arena that is open. The sets stand behind one turn lock
//! (`turn_lock`). A caller takes a set, uses its lanes outside the lock, and gives it back:
//!
//! ```text
//!   caller 0   take ── 2 ──────── calls on lanes ──────── 2 ── give_back
//!   caller 1        take ── 0 ── calls ── 0 ── give_back         take ── 2 ──
//!   the pool   0 1 2 3   0 1 3   1 3           0 1 3         0 1 2 3     0 1 3
//! ```
//!
//! A caller knows its **part** of the pool (`PoolPart`): whatever others do, the set that it has out,
//! the calls that it may still make, what it said of the power and what it was told are as its own
//! turns left them.
//!
//! - **Sets.** A set that is at home is ready: each lane is there, idle, holds no session's pass, and is
//!   the same lane of the same arena as at first. A set that is out is with one caller.
//! - **Room.** A caller may make a number of calls in all. A lane's log has room for a number of calls,
//!   its spare. Each lane that comes out has room for all calls that all callers may still make; a caller
//!   says at `give_back` how many it made, and each lane that comes back has room for all but these. So no
//!   call takes memory, however many calls a caller makes with one set.
//! - **Power.** Once a caller called `stop`, `take` gives no set, and each caller that asks is told
//!   the first caller's `PowerOff`. A caller that has a set out then hands it to `stop` too, whatever
//!   its lanes are doing, and its part has the set as it was. A caller **switched** power off if it
//!   called `stop` before it was told that power is off.
//!
//! | call | promise | definition |
//! |---|---|---|
//! | [`LanePool::of`] | every set is at home, and each pass knows that its caller did nothing | `fresh` of specs/Pools.antt |
//! | [`LanePool::take`] | the set that comes out is in no other hand, its lanes are ready, with room for all calls that the caller may still make, and power was on; or power is off | `Takes` of specs/Parts.antt, `IsPool` of specs/Pools.antt |
//! | [`LanePool::give_back`] | the set is at home again, the caller may make so many calls less, and the parts of all others are as they were | `given` of specs/Parts.antt |
//! | [`LanePool::stop`] | power is off, the set is kept as it was handed in, and the caller is told who was first | `Stops` of specs/Parts.antt |
//! | [`LanePool::power`], [`is_off`] | a caller that was told that power is off, or switched it off, is never told that it is on | `Asks`, `IsOn` of specs/Parts.antt |
//! | [`go_off`] | the caller switched power off, and was told so | `HasStopped`, `IsTold` of specs/Parts.antt |
//! | [`LanePool::close`] | every set comes back, once, in order, ready or as the one caller knows it that handed it in; power is off only if some caller switched it off; and a caller was told no other `PowerOff` than the one that is left | `IsClosed` of specs/Parts.antt |
//!
//! No clause says that a wait ends.
#![tactic(auto)]

mod holders;
mod pool;
mod sets;
mod turns;

pub use holders::{Hand, Holder, Stop};
pub use pool::{Pool, PoolPart};
pub use sets::{LaneSet, PowerOff, Who};
pub use turns::{LanePool, Taken, go_off, is_off};
