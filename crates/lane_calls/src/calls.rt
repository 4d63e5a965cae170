//! A session's calls on the sectors of an arena.
ghost use Rattle.std.specs.Prelude.{◌≡◌, length};
ghost use Rattle.arena_open.specs.declared.cell.CellKind.{CellKind as Kind};
ghost use Rattle.lane_core.specs.declared.history.Act.TheVariants as act;
ghost use Rattle.session_parts.specs.Parts.{stand_at};
ghost use Rattle.lane_table.specs.Reads.{cell_of_kind};
ghost use Rattle.lane_pool.specs.Parts.{IsTold};
ghost use Rattle.lane_pool.specs.declared.sets.Who.TheVariants as who;
ghost use Rattle.lane_calls.specs.declared.calls.Heard.TheVariants as heard;
ghost use Rattle.lane_calls.specs.declared.calls.Wrote.TheVariants as wrote;
ghost use Rattle.lane_calls.specs.Calls.{CallGoes, IsNextCall, IsStopped, MayCallAt, MayRead, MayWrite, SpendsOne, StopsWhenSpent, SwitchesNot, answered, none_at_least, one_at_least, whichever, write_at_least};

use crate::beginning::{OnLane, begin};
use crate::ending::{give_back, hand_in};
use crate::on_lane::{WriteEnd, write_on_lane};
use crate::reading::{Looked, read_until};
use crate::session::{Sectors, Session};
use crate::waiting::Waiting;
use arena_open::CellKind;
use lane_pool::{PowerOff, Who};
use lane_table::{Call, LaneEnd};
use nvd_media::Gate;
use nvd_words::Tag;
use std::sync::Wait;

/// What a write of a session is answered.
#[derive(Clone, Copy, Debug, PartialEq, Eq)]
pub enum Wrote {
    /// It stands.
    Done,
    /// Power was cut. It stands or doesn't.
    Cut,
}

/// What a read of a session is answered.
#[derive(Clone, Copy, Debug, PartialEq, Eq)]
pub enum Heard {
    /// The sector's cell is of this kind, and its words were read.
    Got(CellKind),
    /// Power was cut.
    Cut,
}

/// That a session's own steps are made.
fn off_by(session: &Session) -> PowerOff
    ensures { result ≡ record { who = who.Session session.now.number; steps = session.now.caller.steps } }
{
    PowerOff {
        who: Who::Session(session.number),
        steps: session.caller.steps,
    }
}

/// Writes a sector of the arena at a place. The call has the session's next number, whatever it is
/// answered.
///
/// It uses the set of lanes that the session keeps, or takes one from the pool.
/// It lends the set's lane at the place the session's pass and fuse. The lane tries until the write
/// stands; before each further try the session asks whether power is off. Then the session keeps
/// the set for its next call, or gives it back after 64 calls.
///
/// So a session goes on for at most 64 calls after another one has switched power off.
pub fn write<R: Wait, G: Gate>(
    waiting: &Waiting<R, G>,
    sectors: &Sectors,
    session: &mut Session,
    place: usize,
    sector: u32,
    words: &[u64],
) -> Wrote
    requires { MayCallAt sectors.now place (MayWrite session.old.caller.call sector words.now) session.old }
    ensures next { IsNextCall session.old session.new }
    ensures done { result ≡ wrote.Done → CallGoes sectors.now place write_at_least (whichever (λ m m'. m' ≡ answered (stand_at session.old.caller.call sector (act.Write words.now)) m)) session.old session.new }
    ensures spent { result ≡ wrote.Done → SpendsOne session.old session.new }
    ensures cut { result ≡ wrote.Cut → CallGoes sectors.now place none_at_least (IsStopped session.old.number session.old.caller.call sector words.now) session.old session.new }
    ensures off { result ≡ wrote.Cut → SwitchesNot session.old session.new → CallGoes sectors.now place none_at_least (whichever (λ m m'. m' ≡ m)) session.old session.new }
    ensures told { result ≡ wrote.Cut → IsTold session.new.caller.pool × StopsWhenSpent session.old session.new }
{
    let rt = waiting.rt;
    let tag = Tag {
        session: session.number,
        call: session.caller.call,
    };
    let call = Call { tag, sector };
    session.caller.call += 1;
    let Some(on) = begin(rt, sectors, session, place) else {
        return Wrote::Cut;
    };
    let OnLane { kept, lane } = on;
    let arena = &sectors.arenas[place];
    let pass = &mut session.caller.pool;
    match write_on_lane(waiting, &sectors.pool, pass, arena, lane, call, words) {
        WriteEnd::Done(lane) => {
            give_back(rt, sectors, session, place, kept, lane);
            Wrote::Done
        }
        WriteEnd::Off(end, off) => {
            hand_in(rt, sectors, session, place, kept, end, off);
            Wrote::Cut
        }
        WriteEnd::Cut(end) => {
            let off = off_by(session);
            hand_in(rt, sectors, session, place, kept, end, off);
            Wrote::Cut
        }
    }
}

/// Reads a sector of the arena at a place into `into`, in the same way.
pub fn read<R: Wait>(
    rt: &R,
    sectors: &Sectors,
    session: &mut Session,
    place: usize,
    sector: u32,
    into: &mut [u64],
) -> Heard
    requires may { MayCallAt sectors.now place (MayRead session.old.caller.call sector (length into.old)) session.old }
    ensures next { IsNextCall session.old session.new }
    ensures done { (kind : Kind) → result ≡ heard.Got kind → CallGoes sectors.now place one_at_least (whichever (λ m m'. m' ≡ answered (stand_at session.old.caller.call sector (act.Read (cell_of_kind kind into.new))) m)) session.old session.new }
    ensures spent { (kind : Kind) → result ≡ heard.Got kind → SpendsOne session.old session.new }
    ensures cut { result ≡ heard.Cut → CallGoes sectors.now place none_at_least (whichever (λ m m'. m' ≡ m)) session.old session.new }
    ensures told { result ≡ heard.Cut → IsTold session.new.caller.pool × StopsWhenSpent session.old session.new }
{
    let tag = Tag {
        session: session.number,
        call: session.caller.call,
    };
    let call = Call { tag, sector };
    session.caller.call += 1;
    let Some(on) = begin(rt, sectors, session, place) else {
        return Heard::Cut;
    };
    let OnLane { kept, lane } = on;
    let arena = &sectors.arenas[place];
    let pass = &mut session.caller.pool;
    match read_until(rt, &sectors.pool, pass, arena, lane, call, into) {
        Looked::Got { lane, kind } => {
            give_back(rt, sectors, session, place, kept, lane);
            Heard::Got(kind)
        }
        Looked::Off(lane, off) => {
            hand_in(rt, sectors, session, place, kept, LaneEnd::Idle(lane), off);
            Heard::Cut
        }
        Looked::Cut(stopped) => {
            let off = off_by(session);
            hand_in(
                rt,
                sectors,
                session,
                place,
                kept,
                LaneEnd::Stopped(stopped),
                off,
            );
            Heard::Cut
        }
    }
}
