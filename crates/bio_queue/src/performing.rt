//! How a worker's session makes an operation.
ghost use Rattle.std.specs.Prelude.{◌≡◌, ◌+◌, ℕ, List, [], ◌∷◌, ◌++◌, length, true};
ghost use Rattle.lane_pool.specs.Parts.{IsTold};
ghost use Rattle.lane_calls.specs.Calls.{SwitchesNot};
ghost use Rattle.lane_table.specs.Reads.{cell_of_kind};
ghost use Rattle.session_parts.specs.declared.parts.Stand.{Stand};
ghost use Rattle.bio_queue.specs.declared.op.Op.TheVariants as op_is;
ghost use Rattle.bio_queue.specs.declared.op.OpReply.{OpReply as AnyReply};
ghost use Rattle.bio_queue.specs.declared.op.OpReply.TheVariants as reply;
ghost use Rattle.bio_queue.specs.declared.performing.Performed.TheVariants as performed;
ghost use Rattle.bio_queue.specs.Ops.{fits, kind_of};
ghost use Rattle.bio_queue.specs.Serving.{HasMade, MayMake, MayPerform, stand_of};

use crate::op::{Op, OpReply};
use arena_open::{Cell, CellKind};
use lane_calls::{Heard, Sectors, Session, Waiting, Wrote, read, write};
use nvd_media::Gate;
use nvd_words::Items;
use std::sync::Wait;

/// Room for the words of a sector, twice.
#[derive(Drop)]
pub(crate) struct Room {
    pub(crate) words: Vec<u64>,
    pub(crate) copy: Vec<u64>,
    ghost as_long: { length copy.items ≡ length words.items },
}

/// What came of an operation.
#[derive(Drop)]
pub(crate) enum Performed {
    /// It was made. There are two replies, which are the same: one is kept, and one told.
    Done { reply: OpReply, told: OpReply },
    /// Power is off.
    Off,
}

/// The cell that a read got.
fn cell_of(kind: CellKind, words: Vec<u64>) -> Cell
    ensures { result ≡ cell_of_kind kind words.items }
{
    match kind {
        CellKind::Bytes => Cell::Bytes(Items::from_vec(words)),
        CellKind::Bad => Cell::Bad,
    }
}

/// Two replies with the words that were read.
fn two_replies(kind: CellKind, words: Vec<u64>, mut copy: Vec<u64>) -> Performed
    requires { length copy.items ≡ length words.items }
    ensures { result ≡ performed.Done (reply.Got (cell_of_kind kind words.items)) (reply.Got (cell_of_kind kind words.items)) }
{
    copy.as_mut_slice().copy_from_slice(words.as_slice());
    Performed::Done {
        reply: OpReply::Got(cell_of(kind, words)),
        told: OpReply::Got(cell_of(kind, copy)),
    }
}

/// Reads a sector of the first arena.
fn perform_read<R: Wait>(
    rt: &R,
    sectors: &Sectors,
    session: &mut Session,
    sector: u32,
    room: Room,
) -> Performed
    requires { MayPerform sectors.now (op_is.Read sector) (length room.words.items) session.old }
    ensures next { (session.new.number ≡ session.old.number) × (session.new.caller.call ≡ session.old.caller.call + 1) }
    ensures fits { (r t : AnyReply) → result ≡ performed.Done r t → (t ≡ r) × (fits (kind_of (op_is.Read sector)) r ≡ true) }
    ensures done { (r t : AnyReply) → result ≡ performed.Done r t → (m w n : ℕ) (done : List Stand) → MayMake sectors.now m w (n + 1) done session.old → MayMake sectors.now m w n (done ++ stand_of session.old.caller.call (op_is.Read sector) r ∷ []) session.new }
    ensures off { result ≡ performed.Off → (m w n : ℕ) (done : List Stand) → MayMake sectors.now m w n done session.old → HasMade sectors.now done session.new }
    ensures told { result ≡ performed.Off → IsTold session.new.caller.pool }
    ensures power { SwitchesNot session.old session.new }
{
    let Room {
        mut words,
        copy,
        ..
    } = room;
    let into = words.as_mut_slice();
    match read(rt, sectors, session, 0, sector, into) {
        Heard::Got(kind) => two_replies(kind, words, copy),
        Heard::Cut => Performed::Off,
    }
}

/// Writes a sector of the first arena.
fn perform_write<R: Wait, G: Gate>(
    waiting: &Waiting<R, G>,
    sectors: &Sectors,
    session: &mut Session,
    sector: u32,
    words: &Items<u64>,
) -> Performed
    requires { (room : ℕ) × MayPerform sectors.now (op_is.Write sector words.now) room session.old }
    ensures next { (session.new.number ≡ session.old.number) × (session.new.caller.call ≡ session.old.caller.call + 1) }
    ensures fits { (r t : AnyReply) → result ≡ performed.Done r t → (t ≡ r) × (fits (kind_of (op_is.Write sector words.now)) r ≡ true) }
    ensures done { (r t : AnyReply) → result ≡ performed.Done r t → (m w n : ℕ) (done : List Stand) → MayMake sectors.now m w (n + 1) done session.old → MayMake sectors.now m w n (done ++ stand_of session.old.caller.call (op_is.Write sector words.now) r ∷ []) session.new }
    ensures off { result ≡ performed.Off → (m w n : ℕ) (done : List Stand) → MayMake sectors.now m w n done session.old → HasMade sectors.now done session.new }
    ensures told { result ≡ performed.Off → IsTold session.new.caller.pool }
    ensures power { SwitchesNot session.old session.new }
{
    match write(waiting, sectors, session, 0, sector, words.as_slice()) {
        Wrote::Done => Performed::Done {
            reply: OpReply::Wrote,
            told: OpReply::Wrote,
        },
        Wrote::Cut => Performed::Off,
    }
}

/// Makes an operation that fits the first arena.
pub(crate) fn perform<R: Wait, G: Gate>(
    waiting: &Waiting<R, G>,
    sectors: &Sectors,
    session: &mut Session,
    op: &Op,
    room: Room,
) -> Performed
    requires { MayPerform sectors.now op.now (length room.words.items) session.old }
    ensures next { (session.new.number ≡ session.old.number) × (session.new.caller.call ≡ session.old.caller.call + 1) }
    ensures fits { (r t : AnyReply) → result ≡ performed.Done r t → (t ≡ r) × (fits (kind_of op.now) r ≡ true) }
    ensures done { (r t : AnyReply) → result ≡ performed.Done r t → (m w n : ℕ) (done : List Stand) → MayMake sectors.now m w (n + 1) done session.old → MayMake sectors.now m w n (done ++ stand_of session.old.caller.call op.now r ∷ []) session.new }
    ensures off { result ≡ performed.Off → (m w n : ℕ) (done : List Stand) → MayMake sectors.now m w n done session.old → HasMade sectors.now done session.new }
    ensures told { result ≡ performed.Off → IsTold session.new.caller.pool }
    ensures power { SwitchesNot session.old session.new }
{
    match op {
        Op::Read { sector } => perform_read(waiting.rt, sectors, session, *sector, room),
        Op::Write { sector, words } => perform_write(waiting, sectors, session, *sector, words),
    }
}
