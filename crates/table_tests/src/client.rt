//! A session and the lane that makes its calls: the lane holds the session's pass, and each call that is answered has the next number.
ghost use Rattle.std.specs.Prelude.{◌≡◌, ◌<◌, [], ◌∷◌, true, length, IfSome};
ghost use Rattle.lane_table.specs.Kits.{arena_id, held_in, IsOf};
ghost use Rattle.lane_table.specs.Law.{may_enter, new_pass};

use arena_open::CellKind;
use lane_table::{
    Arena, CommitOutcome, Lane, Pass, Pause, ReadOutcome, StageOutcome, Staged, Stopped,
};
use nvd_words::Tag;

/// How often a lane tries again while another one reads its free block: until that thread goes on, however busy the machine is.
const TRIES: u32 = u32::MAX;

/// A lane that holds the pass of this session, whose next call has this number.
#[derive(Drop)]
pub(crate) struct Client {
    pub(crate) lane: Lane,
    pub(crate) session: u32,
    pub(crate) next: u32,
    ghost may: { may_enter (held_in lane.kit) (record { session = session; call = next }) ≡ true },
}

/// The same once the lane has staged a write.
#[derive(Drop)]
pub(crate) struct Ready {
    pub(crate) staged: Staged,
    pub(crate) session: u32,
    pub(crate) next: u32,
    ghost may: { may_enter (held_in staged.kit) (record { session = session; call = next }) ≡ true },
}

/// A lane takes a new pass.
#[tactic(auto, using(lane_table::proofs::Passes::may_begin))]
pub(crate) fn begin(arena: &Arena, mut lane: Lane, pass: Pass) -> Client
    requires lane { IsOf arena.now lane.kit }
    requires none { held_in lane.kit ≡ [] }
    requires pass { pass.seat.table_id ≡ arena_id arena.now }
    requires new { pass.seat.me.0.loose ≡ new_pass pass.session ∷ [] }
    ensures { IsOf arena.now result.lane.kit × (result.lane.kit.number ≡ lane.kit.number) }
{
    let session = pass.session();
    lane.take_pass(arena, pass);
    Client {
        lane,
        session,
        next: 0,
    }
}

/// A lane stages a write, each word with the same value. While another lane reads its free block it tries again.
pub(crate) fn stage(arena: &Arena, client: Client, value: u64) -> Option<Ready>
    requires width { arena.now.shape.width ≡ 64 }
    requires lane { IsOf arena.now client.lane.kit }
    ensures { IfSome result (λ r. IsOf arena.now r.staged.kit × (r.staged.kit.number ≡ client.lane.kit.number)) }
{
    let Client {
        mut lane,
        session,
        next,
    } = client;
    lane.reserve(1).ok()?;
    for _ in 0..TRIES {
        match lane.try_stage(arena, &[value; 64]) {
            StageOutcome::Staged(staged) => {
                return Some(Ready {
                    staged,
                    session,
                    next,
                });
            }
            StageOutcome::Tracked { lane: back, .. } => lane = back,
            StageOutcome::Cut(_) => return None,
        }
    }
    None
}

/// A write of sector `sector` that is done. `None` if it isn't.
#[tactic(auto, using(lane_table::proofs::Passes::may_go_on))]
pub(crate) fn commit(arena: &Arena, ready: Ready, sector: u32) -> Option<Client>
    requires lane { IsOf arena.now ready.staged.kit }
    requires sector { sector < arena.now.shape.sectors }
    ensures lane { IfSome result (λ c. IsOf arena.now c.lane.kit × (c.lane.kit.number ≡ ready.staged.kit.number)) }
{
    let Ready {
        staged,
        session,
        next,
    } = ready;
    let tag = Tag {
        session,
        call: next,
    };
    let later = next.checked_add(1)?;
    match staged.try_commit(arena, tag, sector) {
        CommitOutcome::Done(lane) => Some(Client {
            lane,
            session,
            next: later,
        }),
        _ => None,
    }
}

/// A write that finds the lock of its map word taken, and the lane that has it.
pub(crate) fn refused(arena: &Arena, ready: Ready, sector: u32) -> Option<(Ready, u32)>
    requires lane { IsOf arena.now ready.staged.kit }
    requires sector { sector < arena.now.shape.sectors }
    ensures { IfSome result (λ r. IsOf arena.now r.0.staged.kit × (r.0.staged.kit.number ≡ ready.staged.kit.number)) }
{
    let Ready {
        staged,
        session,
        next,
    } = ready;
    let tag = Tag {
        session,
        call: next,
    };
    match staged.try_commit(arena, tag, sector) {
        CommitOutcome::MapBusy { staged, holder } => {
            let ready = Ready {
                staged,
                session,
                next,
            };
            Some((ready, holder))
        }
        _ => None,
    }
}

/// A write that is cut after so many steps of its commit.
pub(crate) fn cut(arena: &Arena, ready: Ready, sector: u32, steps: u64) -> Option<Stopped>
    requires lane { IsOf arena.now ready.staged.kit }
    requires sector { sector < arena.now.shape.sectors }
    ensures { IfSome result (λ s. IsOf arena.now s.kit × (s.kit.number ≡ ready.staged.kit.number)) }
{
    let Ready {
        mut staged,
        session,
        next,
    } = ready;
    let tag = Tag {
        session,
        call: next,
    };
    staged.set_fuse(Some(steps));
    match staged.try_commit(arena, tag, sector) {
        CommitOutcome::Cut(stopped) => Some(stopped),
        _ => None,
    }
}

/// A read that got a cell.
#[tactic(auto, using(lane_table::proofs::Passes::may_go_on))]
pub(crate) fn read<P: Pause>(
    arena: &Arena,
    client: Client,
    sector: u32,
    into: &mut [u64],
    between: &mut P,
) -> Option<(Client, CellKind)>
    requires lane { IsOf arena.now client.lane.kit }
    requires sector { sector < arena.now.shape.sectors }
    requires into { length into.old ≡ arena.now.shape.width }
    ensures into { length into.new ≡ length into.old }
    ensures lane { IfSome result (λ r. IsOf arena.now r.0.lane.kit × (r.0.lane.kit.number ≡ client.lane.kit.number)) }
{
    let Client {
        mut lane,
        session,
        next,
    } = client;
    let tag = Tag {
        session,
        call: next,
    };
    let later = next.checked_add(1)?;
    lane.reserve(1).ok()?;
    match lane.try_read_paused(arena, tag, sector, into, between) {
        ReadOutcome::Got { lane, kind } => {
            let client = Client {
                lane,
                session,
                next: later,
            };
            Some((client, kind))
        }
        _ => None,
    }
}

/// A read that finds two different entries.
pub(crate) fn moved<P: Pause>(
    arena: &Arena,
    client: Client,
    sector: u32,
    into: &mut [u64],
    between: &mut P,
) -> Option<(Client, u32, u32)>
    requires lane { IsOf arena.now client.lane.kit }
    requires sector { sector < arena.now.shape.sectors }
    requires into { length into.old ≡ arena.now.shape.width }
    ensures into { length into.new ≡ length into.old }
    ensures lane { IfSome result (λ r. IsOf arena.now r.0.lane.kit × (r.0.lane.kit.number ≡ client.lane.kit.number)) }
{
    let Client {
        mut lane,
        session,
        next,
    } = client;
    let tag = Tag {
        session,
        call: next,
    };
    lane.reserve(1).ok()?;
    match lane.try_read_paused(arena, tag, sector, into, between) {
        ReadOutcome::Moved { lane, first, then } => {
            let client = Client {
                lane,
                session,
                next,
            };
            Some((client, first, then))
        }
        _ => None,
    }
}

/// A read that is tried until it gets a cell.
#[tactic(auto, using(lane_table::proofs::Passes::may_go_on))]
pub(crate) fn read_again(
    arena: &Arena,
    client: Client,
    sector: u32,
    into: &mut [u64],
) -> Option<Client>
    requires lane { IsOf arena.now client.lane.kit }
    requires sector { sector < arena.now.shape.sectors }
    requires into { length into.old ≡ arena.now.shape.width }
    ensures into { length into.new ≡ length into.old }
    ensures lane { IfSome result (λ c. IsOf arena.now c.lane.kit × (c.lane.kit.number ≡ client.lane.kit.number)) }
{
    let Client {
        mut lane,
        session,
        next,
    } = client;
    let tag = Tag {
        session,
        call: next,
    };
    let later = next.checked_add(1)?;
    lane.reserve(1).ok()?;
    for _ in 0..TRIES {
        match lane.try_read(arena, tag, sector, into) {
            ReadOutcome::Got { lane, .. } => {
                return Some(Client {
                    lane,
                    session,
                    next: later,
                });
            }
            ReadOutcome::Moved { lane: back, .. } => lane = back,
            ReadOutcome::Cut(_) => return None,
        }
    }
    None
}

/// A read that is cut after so many steps.
pub(crate) fn cut_read(arena: &Arena, client: Client, sector: u32, steps: u64) -> Option<Stopped>
    requires width { arena.now.shape.width ≡ 64 }
    requires lane { IsOf arena.now client.lane.kit }
    requires sector { sector < arena.now.shape.sectors }
    ensures { IfSome result (λ s. IsOf arena.now s.kit × (s.kit.number ≡ client.lane.kit.number)) }
{
    let Client {
        mut lane,
        session,
        next,
    } = client;
    let tag = Tag {
        session,
        call: next,
    };
    lane.reserve(1).ok()?;
    lane.set_fuse(Some(steps));
    match lane.try_read(arena, tag, sector, &mut [0; 64]) {
        ReadOutcome::Cut(stopped) => Some(stopped),
        _ => None,
    }
}

/// The first lane's session goes on in the second lane, whose own pass goes.
#[tactic(auto, using(lane_table::proofs::Passes::may_again))]
pub(crate) fn go_on(arena: &Arena, first: Client, second: Client) -> Option<(Lane, Client)>
    requires first { IsOf arena.now first.lane.kit }
    requires second { IsOf arena.now second.lane.kit }
    ensures first { IfSome result (λ r. IsOf arena.now r.0.kit × (r.0.kit.number ≡ first.lane.kit.number)) }
    ensures second { IfSome result (λ r. IsOf arena.now r.1.lane.kit × (r.1.lane.kit.number ≡ second.lane.kit.number)) }
{
    let Client {
        lane: mut from,
        session,
        next,
    } = first;
    let Client {
        mut lane,
        session: other,
        ..
    } = second;
    let _gone = lane.give_pass(arena, other);
    let pass = from.give_pass(arena, session);
    lane.take_pass(arena, pass);
    Some((
        from,
        Client {
            lane,
            session,
            next,
        },
    ))
}
