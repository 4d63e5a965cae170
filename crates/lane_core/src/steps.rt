//! One step of a lane: the line of its phase.
ghost use Rattle.std.specs.Prelude.{◌≡◌, ◌/◌, ◌<◌};
ghost use Rattle.lane_core.specs.After.{answer_after, answer_looked, kind_found, lane_after, lane_looked, past_after, past_looked, row_after};
ghost use Rattle.lane_core.specs.Lines.{HasWord};
ghost use Rattle.lane_core.specs.Places.{SeenMap};
ghost use Rattle.lane_core.specs.Ready.{HasCell, IsReady, ReadsWord, StagesWord};

use crate::calls::History;
use crate::lines::{
    clear_done, clear_moved, data_keep, data_load, data_store, flog_a_keep, flog_a_store,
    flog_b_keep, flog_b_store, lock_free, lock_take, map_keep, map_load, map_store, rtt_scan,
    rtt_set,
};
use crate::looks::{check_moved, check_same, found_kind, is_same, look, look_bad, look_zeros};
use crate::now::LaneNow;
use crate::phase::Phase;
use crate::row::Row;
use crate::shape::Shape;
use crate::stepped::{Answer, Step, Stepped};
use map_table::Kind;
use std::alloc::Global;

/// The step of a lane. Takes no memory.
pub fn step_lane(
    row: &mut Row,
    mine: &mut LaneNow,
    history: &mut History,
    shape: &Shape,
    lane: u32,
    alloc: Global,
) -> Stepped
    requires ready { IsReady shape.now row.old lane mine.old history.old.room }
    ensures row { row.new ≡ row_after shape.now lane row.old mine.old mine.old.phase }
    ensures lane { mine.new ≡ lane_after shape.now lane row.old mine.old mine.old.phase }
    ensures history { history.new ≡ past_after shape.now lane row.old mine.old history.old mine.old.phase }
    ensures answer { result ≡ answer_after shape.now lane row.old mine.old mine.old.phase }
{
    match mine.phase {
        Phase::Idle => Stepped::Nothing,
        Phase::Scanning(j) => {
            rtt_scan(row, mine, shape, lane, j);
            Stepped::Went(Step::RttScan)
        }
        Phase::Staging(k) => step_staging(row, mine, shape, k),
        Phase::Staged => {
            lock_take(row, mine, shape, lane);
            Stepped::Went(Step::LockTake)
        }
        Phase::Locked => {
            map_load(row, mine, shape);
            Stepped::Went(Step::MapLoad)
        }
        Phase::Known => {
            flog_a_store(row, mine, shape, lane);
            Stepped::Went(Step::FlogAStore)
        }
        Phase::LogAStored => {
            flog_a_keep(row, mine, shape, lane);
            Stepped::Went(Step::FlogAKeep)
        }
        Phase::LogA => {
            flog_b_store(row, mine, shape, lane);
            Stepped::Went(Step::FlogBStore)
        }
        Phase::LogBStored => {
            flog_b_keep(row, mine, shape, lane);
            Stepped::Went(Step::FlogBKeep)
        }
        Phase::Logged => {
            map_store(row, mine, shape, lane, history, alloc);
            Stepped::Went(Step::MapStore)
        }
        Phase::Switched => {
            map_keep(row, mine, shape);
            Stepped::Went(Step::MapKeep)
        }
        Phase::Kept => {
            lock_free(row, mine, shape);
            Stepped::Done(mine.tag, Answer::Wrote)
        }
        Phase::Called => step_called(row, mine, history, shape, lane, alloc),
        Phase::Looking => {
            rtt_set(row, mine, shape, lane);
            Stepped::Went(Step::RttSet)
        }
        Phase::Published => step_published(row, mine, history, shape, lane, alloc),
        Phase::Moved => {
            clear_moved(row, mine, shape, lane);
            Stepped::Went(Step::RttClear)
        }
        Phase::Reading(k) => step_reading(row, mine, shape, lane, k, alloc),
    }
}

/// A write stores a word, or keeps one.
fn step_staging(row: &mut Row, mine: &mut LaneNow, shape: &Shape, k: u32) -> Stepped
    requires word { StagesWord shape.now row.old mine.old k }
    ensures row { row.new ≡ row_after shape.now 0 row.old mine.old (Phase.Staging k) }
    ensures lane { mine.new ≡ lane_after shape.now 0 row.old mine.old (Phase.Staging k) }
    ensures answer { result ≡ answer_after shape.now 0 row.old mine.old (Phase.Staging k) }
{
    if k < shape.width {
        data_store(row, mine, shape, k);
        Stepped::Went(Step::DataStore)
    } else {
        data_keep(row, mine, shape, k);
        Stepped::Went(Step::DataKeep)
    }
}

/// A read looks at its entry.
fn step_called(
    row: &Row,
    mine: &mut LaneNow,
    history: &mut History,
    shape: &Shape,
    lane: u32,
    alloc: Global,
) -> Stepped
    requires word { HasWord shape.now row.now (SeenMap (mine.old.sector / 2)) }
    requires room { 0 < history.old.room }
    ensures lane { mine.new ≡ lane_looked shape.now lane row.now mine.old (kind_found shape.now lane row.now mine.old) }
    ensures history { history.new ≡ past_looked shape.now lane row.now mine.old history.old (kind_found shape.now lane row.now mine.old) }
    ensures answer { result ≡ answer_looked shape.now lane row.now mine.old (kind_found shape.now lane row.now mine.old) }
{
    let tag = mine.tag;
    match found_kind(row, mine, shape) {
        Kind::Zero => Stepped::Done(tag, Answer::Got(look_zeros(mine, lane, history, alloc))),
        Kind::Bad => Stepped::Done(tag, Answer::Got(look_bad(mine, lane, history))),
        Kind::Initial => {
            look(row, mine, shape);
            Stepped::Went(Step::MapLoad)
        }
        Kind::Normal => {
            look(row, mine, shape);
            Stepped::Went(Step::MapLoad)
        }
    }
}

/// A read looks at its entry again.
fn step_published(
    row: &Row,
    mine: &mut LaneNow,
    history: &mut History,
    shape: &Shape,
    lane: u32,
    alloc: Global,
) -> Stepped
    requires word { HasWord shape.now row.now (SeenMap (mine.old.sector / 2)) }
    requires block { HasCell shape.now row.now mine.old }
    requires room { 0 < history.old.room }
    ensures lane { mine.new ≡ lane_after shape.now lane row.now mine.old Phase.Published }
    ensures history { history.new ≡ past_after shape.now lane row.now mine.old history.old Phase.Published }
    ensures answer { result ≡ answer_after shape.now lane row.now mine.old Phase.Published }
{
    if is_same(row, mine, shape) {
        check_same(row, mine, shape, lane, history, alloc);
    } else {
        check_moved(mine);
    }
    Stepped::Went(Step::MapCheck)
}

/// A read loads a word, or is done.
fn step_reading(
    row: &mut Row,
    mine: &mut LaneNow,
    shape: &Shape,
    lane: u32,
    k: u32,
    alloc: Global,
) -> Stepped
    requires word { ReadsWord shape.now row.old lane mine.old k }
    ensures row { row.new ≡ row_after shape.now lane row.old mine.old (Phase.Reading k) }
    ensures lane { mine.new ≡ lane_after shape.now lane row.old mine.old (Phase.Reading k) }
    ensures answer { result ≡ answer_after shape.now lane row.old mine.old (Phase.Reading k) }
{
    if k < shape.width {
        data_load(row, mine, shape, k);
        Stepped::Went(Step::DataLoad)
    } else {
        let tag = mine.tag;
        let cell = clear_done(row, mine, shape, lane, alloc);
        Stepped::Done(tag, Answer::Got(cell))
    }
}
