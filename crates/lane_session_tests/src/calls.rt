//! A session's calls on the first of its arenas.
ghost use Rattle.std.specs.Prelude.{◌≡◌, ◌+◌, ◌≤◌, ℕ, Some, true};
ghost use Rattle.lane_session_tests.specs.More.{IsBetween, IsResting, MayCallMore};

use arena_open::CellKind;
use lane_calls::{Heard, Sectors, Session, Waiting, Wrote, read, rest, write};
use nvd_media::NoGate;
use std::sync::Wait;

/// Writes a sector, each word with the same value. False if power was cut.
pub fn put<R: Wait>(
    rt: &R,
    sectors: &Sectors,
    session: &mut Session,
    sector: u32,
    value: u64,
) -> bool
    requires may { MayCallMore sectors.now 1 session.old }
    requires sector { sector ≤ 60 }
    ensures number { session.new.number ≡ session.old.number }
    ensures done { result ≡ true → (n : ℕ) → MayCallMore sectors.now (n + 1) session.old → MayCallMore sectors.now n session.new }
    ensures between { IsBetween sectors.now session.new }
{
    let words = [value; 64];
    let waiting = Waiting { rt, gate: &NoGate };
    match write(&waiting, sectors, session, 0, sector, &words) {
        Wrote::Done => true,
        Wrote::Cut => false,
    }
}

/// The last word of a sector, or 0 if the sector has no bytes. `None` if power was cut.
pub fn get<R: Wait>(rt: &R, sectors: &Sectors, session: &mut Session, sector: u32) -> Option<u64>
    requires may { MayCallMore sectors.now 1 session.old }
    requires sector { sector ≤ 60 }
    ensures number { session.new.number ≡ session.old.number }
    ensures done { (value : ℕ) → result ≡ Some value → (n : ℕ) → MayCallMore sectors.now (n + 1) session.old → MayCallMore sectors.now n session.new }
    ensures between { IsBetween sectors.now session.new }
{
    let mut into = [7; 64];
    match read(rt, sectors, session, 0, sector, &mut into) {
        Heard::Got(CellKind::Bytes) => Some(into[63]),
        Heard::Got(_) => Some(0),
        Heard::Cut => None,
    }
}

/// The session gives back the set that it keeps.
pub fn pause<R: Wait>(rt: &R, sectors: &Sectors, session: &mut Session)
    requires between { IsBetween sectors.now session.old }
    ensures number { session.new.number ≡ session.old.number }
    ensures more { (n : ℕ) → MayCallMore sectors.now n session.old → MayCallMore sectors.now n session.new }
    ensures resting { IsResting sectors.now session.new }
{
    rest(rt, sectors, session);
}
