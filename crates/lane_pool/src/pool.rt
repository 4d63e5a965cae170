//! What stands behind the lock.
ghost use Rattle.std.specs.Prelude.{◌≡◌, ◌≢◌, ℕ, ◌++◌, ◌<◌, ◌≤◌, ◌^◌, List, length, map, sum, Some, None, IfOk, OnOk, IfSome};
ghost use Rattle.lane_pool.specs.Parts.{or_first, stop_with};
ghost use Rattle.lane_pool.specs.Pools.{new_holder, set_at};

use crate::holders::{Hand, Holder, Stop};
use crate::sets::{LaneSet, PowerOff};
use lane_table::LaneEnd;
use std::alloc::{AllocError, Global};
use std::collections::LinkedList;
use std::marker::Model;
use std::snapshot::Snapshot;
use turn_lock::Parted;

/// A caller's part of the pool. Contracts alone use it, and no code makes a value of it.
pub struct PoolPart {
    /// The sets with which the pool began. They never change.
    pub first: LinkedList<LaneSet>,
    /// Whether the pool has a place for the caller.
    pub placed: bool,
    /// The calls that it may still make. Those with a set that it has out count once the set is back.
    pub left: u64,
    pub hand: Hand,
    /// The set that it handed to `stop`.
    pub handed: Option<LaneSet>,
    pub stop: Option<Stop>,
    pub told: Option<PowerOff>,
}

/// What is offered to a caller that wants a set.
#[derive(Drop)]
pub(crate) enum Offer {
    Got(LaneSet),
    Off(PowerOff),
    /// No set is at home.
    Nothing,
}

/// The sets of lanes that are at home, and the callers.
#[derive(Drop)]
pub struct Pool {
    sets: Vec<Option<LaneSet>>,
    holders: Vec<Holder>,
    /// The calls that all callers may still make.
    total: u64,
    off: Option<PowerOff>,
    first: Snapshot<Vec<LaneSet>>,
}

impl Model for Pool {
    ghost use Rattle.lane_pool.specs.Pools.{IsInside, Now, pool_now};

    ghost Value = { Now };

    ghost view = { λ s. pool_now s.first.value.items s.sets.items s.holders.items s.off };

    ghost invariant = { λ s. IsInside s.total (pool_now s.first.value.items s.sets.items s.holders.items s.off) };
}

impl Parted for Pool {
    ghost use Rattle.lane_pool.specs.Pools.{part_at};

    type Part = PoolPart;

    ghost part = { part_at };
}

/// The first place whose set is at home. `None` only if there is none.
fn first_home(sets: &[Option<LaneSet>]) -> Option<usize>
    ensures home { IfSome result (λ i. (i < length sets.now) × (set_at sets.now i ≢ None)) }
    ensures none { result ≡ None → (i : ℕ) → set_at sets.now i ≡ None }
{
    for (i, slot) in sets.iter().enumerate() {
        if slot.is_some() {
            return Some(i);
        }
    }
    None
}

/// A place for each set, with the set.
fn at_home(alloc: Global, sets: Vec<LaneSet>) -> Result<Vec<Option<LaneSet>>, AllocError>
    ensures { IfOk result (λ v. v.items ≡ map (λ s. Some s) sets.items) }
{
    let mut home = Vec::with_capacity(alloc, sets.len())?;
    for set in sets {
        home.push(Some(set))?;
    }
    Ok(home)
}

/// A caller for each number of calls, and the sum of these.
fn callers(alloc: Global, entries: &[u32]) -> Result<(Vec<Holder>, u64), AllocError>
    requires few { sum entries.now < 2 ^ 64 }
    ensures holders { IfOk result (λ r. r.0.items ≡ map new_holder entries.now) }
    ensures total { IfOk result (λ r. r.1 ≡ sum entries.now) }
{
    let mut holders = Vec::with_capacity(alloc, entries.len())?;
    let mut total: u64 = 0;
    for left in entries {
        let left = u64::from(*left);
        total += left;
        holders.push(Holder {
            left,
            hand: Hand::Empty,
            stop: None,
            told: None,
        })?;
    }
    Ok((holders, total))
}

/// The `PowerOff` that stays: the one that is, or this one.
fn first_of(is: Option<PowerOff>, off: PowerOff) -> PowerOff
    ensures { Some result ≡ or_first is off }
{
    match is {
        Some(first) => first,
        None => off,
    }
}

/// What a caller said of the power: at its first call of `stop`, or now.
fn stop_of(holder: Holder, off: PowerOff) -> Stop
    ensures { Some result ≡ stop_with off holder.told holder.stop }
{
    match holder.stop {
        Some(stop) => stop,
        None => Stop {
            off,
            told: holder.told.is_some(),
        },
    }
}

/// The sets, which are all at home.
fn all_home(alloc: Global, home: Vec<Option<LaneSet>>) -> Result<Vec<LaneSet>, AllocError>
    requires { (i : ℕ) → i < length home.items → set_at home.items i ≢ None }
    ensures { IfOk result (λ v. map (λ s. Some s) v.items ≡ home.items) }
{
    let mut sets = Vec::with_capacity(alloc, home.len())?;
    for slot in home {
        match slot {
            Some(set) => sets.push(set)?,
            None => unreachable!(),
        }
    }
    Ok(sets)
}

impl Pool {
    ghost use Rattle.std.specs.Prelude.{true, All};
    ghost use Rattle.turn_lock.specs.Turns.{KeepsOthers};
    ghost use Rattle.lane_pool.specs.declared.pool.Offer.TheVariants as offer;
    ghost use Rattle.lane_pool.specs.declared.sets.LaneSet.{LaneSet as Lanes};
    ghost use Rattle.lane_pool.specs.declared.sets.PowerOff.{PowerOff as Off};
    ghost use Rattle.lane_pool.specs.Parts.{Asks, MayGive, MayStop, MayTake, Stops, Takes, given, told_of};
    ghost use Rattle.lane_pool.specs.Pools.{fresh, part_at, IsPool, NobodyOut};
    ghost use Rattle.lane_pool.specs.Sets.{IsReady};

    /// Every set is at home, and nobody did anything.
    pub(crate) fn of(alloc: Global, sets: Vec<LaneSet>, entries: &[u32]) -> Result<Pool, AllocError>
        requires few { sum entries.now < 2 ^ 64 }
        requires ready { All (IsReady (sum entries.now)) sets.items }
        ensures { IfOk result (λ v. v ≡ fresh sets.items entries.now) }
    {
        let first = Snapshot::of(&sets);
        let (holders, total) = callers(alloc, entries)?;
        let sets = at_home(alloc, sets)?;
        Ok(Pool {
            sets,
            holders,
            total,
            off: None,
            first,
        })
    }

    /// The caller is told that power is off.
    fn tell(&mut self, q: usize, off: PowerOff)
        requires placed { (part_at self.old q).placed ≡ true }
        requires off { self.old.off ≡ Some off }
        ensures own { part_at self.new q ≡ told_of off (part_at self.old q) }
        ensures others { KeepsOthers part_at q self.old self.new }
    {
        let holder = self.holders[q];
        self.holders[q] = Holder {
            left: holder.left,
            hand: holder.hand,
            stop: holder.stop,
            told: Some(off),
        };
    }

    /// Takes a set that is at home. Power is on.
    fn take_home(&mut self, q: usize) -> Option<LaneSet>
        requires may { MayTake (part_at self.old q) }
        requires on { self.old.off ≡ None }
        ensures got { IfSome result (λ s. Takes s (part_at self.old q) (part_at self.new q)) }
        ensures none { result ≡ None → self.new ≡ self.old }
        ensures others { KeepsOthers part_at q self.old self.new }
    {
        let holder = self.holders[q];
        let at = first_home(self.sets.as_slice())?;
        let Some(set) = self.sets[at].take() else {
            unreachable!()
        };
        self.holders[q] = Holder {
            left: holder.left,
            hand: Hand::Out {
                at,
                room: self.total,
            },
            stop: holder.stop,
            told: holder.told,
        };
        Some(set)
    }

    /// Takes a set that is at home, unless power is off.
    pub(crate) fn take(&mut self, q: usize) -> Offer
        requires { MayTake (part_at self.old q) }
        ensures got { (s : Lanes) → result ≡ offer.Got s → Takes s (part_at self.old q) (part_at self.new q) }
        ensures off { (p : Off) → result ≡ offer.Off p → part_at self.new q ≡ told_of p (part_at self.old q) }
        ensures nothing { result ≡ offer.Nothing → self.new ≡ self.old }
        ensures others { KeepsOthers part_at q self.old self.new }
    {
        if let Some(off) = self.off {
            self.tell(q, off);
            return Offer::Off(off);
        }
        match self.take_home(q) {
            Some(set) => Offer::Got(set),
            None => Offer::Nothing,
        }
    }

    /// Takes a set back from the caller that has it out and made so many calls with it.
    pub(crate) fn give_back(&mut self, q: usize, set: LaneSet, made: u64)
        requires { MayGive made set (part_at self.old q) }
        ensures own { part_at self.new q ≡ given made (part_at self.old q) }
        ensures others { KeepsOthers part_at q self.old self.new }
    {
        let holder = self.holders[q];
        let Hand::Out { at, room: _ } = holder.hand else {
            unreachable!()
        };
        self.total -= made;
        self.sets[at] = Some(set);
        self.holders[q] = Holder {
            left: holder.left - made,
            hand: Hand::Empty,
            stop: holder.stop,
            told: holder.told,
        };
    }

    /// Power is on: the caller neither stopped it nor was told that it is off.
    fn is_on(&self, q: usize) -> Option<PowerOff>
        requires on { self.now.off ≡ None }
        ensures none { result ≡ None }
        ensures own { Asks None (part_at self.now q) (part_at self.now q) }
    {
        let _off = self.off;
        None
    }

    /// Whether power is off, as the caller is told.
    pub(crate) fn power(&mut self, q: usize) -> Option<PowerOff>
        requires { (part_at self.old q).placed ≡ true }
        ensures own { Asks result (part_at self.old q) (part_at self.new q) }
        ensures others { KeepsOthers part_at q self.old self.new }
    {
        match self.off {
            Some(off) => {
                self.tell(q, off);
                Some(off)
            }
            None => self.is_on(q),
        }
    }

    /// Switches power off, and takes back the set that the caller has out. Returns the `PowerOff`
    /// of the first caller.
    fn hand_in(&mut self, q: usize, set: LaneSet, off: PowerOff) -> PowerOff
        requires { MayStop (Some set) (part_at self.old q) }
        ensures own { Stops (Some set) off result (part_at self.old q) (part_at self.new q) }
        ensures others { KeepsOthers part_at q self.old self.new }
    {
        let holder = self.holders[q];
        let Hand::Out { at, room: _ } = holder.hand else {
            unreachable!()
        };
        let first = first_of(self.off, off);
        self.off = Some(first);
        self.sets[at] = Some(set);
        self.holders[q] = Holder {
            left: holder.left,
            hand: Hand::Stopped(at),
            stop: Some(stop_of(holder, off)),
            told: Some(first),
        };
        first
    }

    /// Switches power off for a caller that has no set out, in the same way.
    fn halt(&mut self, q: usize, off: PowerOff) -> PowerOff
        requires { MayStop None (part_at self.old q) }
        ensures own { Stops None off result (part_at self.old q) (part_at self.new q) }
        ensures others { KeepsOthers part_at q self.old self.new }
    {
        let holder = self.holders[q];
        let first = first_of(self.off, off);
        self.off = Some(first);
        self.holders[q] = Holder {
            left: holder.left,
            hand: holder.hand,
            stop: Some(stop_of(holder, off)),
            told: Some(first),
        };
        first
    }

    /// Switches power off, and takes back the set that the caller has out, if it has one. Returns
    /// the `PowerOff` of the first caller.
    pub(crate) fn stop(&mut self, q: usize, set: Option<LaneSet>, off: PowerOff) -> PowerOff
        requires { MayStop set (part_at self.old q) }
        ensures own { Stops set off result (part_at self.old q) (part_at self.new q) }
        ensures others { KeepsOthers part_at q self.old self.new }
    {
        match set {
            Some(set) => self.hand_in(q, set, off),
            None => self.halt(q, off),
        }
    }

    /// The sets and whether power is off.
    pub(crate) fn into_sets(
        self,
        alloc: Global,
    ) -> Result<(Vec<LaneSet>, Option<PowerOff>), AllocError>
        requires { NobodyOut self.holders }
        ensures sets { IfOk result (λ r. (map (λ s. Some s) r.0.items ≡ self.sets) × (r.1 ≡ self.off)) }
        ensures is_pool { IsPool self }
    {
        let Pool { sets, off, .. } = self;
        let sets = all_home(alloc, sets)?;
        Ok((sets, off))
    }
}
