//! Writes: a lane is staged, and then commits.
ghost use Rattle.std.specs.Prelude.{◌≡◌, ◌<◌, ◌≤◌};
ghost use Rattle.lane_core.specs.Areas.{next_seq};
ghost use Rattle.lane_core.specs.Machine.{other};
ghost use Rattle.lane_table.specs.declared.log.LoggedAct.TheVariants as logged;

use crate::arena::Arena;
use crate::committing::{Fate, commit};
use crate::fuse::Fuse;
use crate::lanes::{Kit, Lane, Staged, Stopped, kit_of};
use crate::log::{LoggedAct, LoggedCall};
use crate::outcome::CommitOutcome;
use crate::pieces::{Mine, seq_after};
use crate::spots::commit_words;
use crate::table::Call;
use nvd_words::Tag;

/// A write, as it stands in its lane's log.
fn written(call: Call) -> LoggedCall
    ensures { result ≡ record { tag = call.tag; sector = call.sector; act = logged.Write } }
{
    LoggedCall {
        tag: call.tag,
        sector: call.sector,
        act: LoggedAct::Write,
    }
}

/// What the code knows of its lane after a commit that left it this free block.
fn mine_after(mine: Mine, block: u32) -> Mine
    requires written { 1 ≤ mine.seq }
    requires ring { mine.seq ≤ 3 }
    requires side { mine.side < 2 }
    ensures { result ≡ record { number = mine.number; block = block; side = other mine.side; seq = next_seq mine.seq } }
{
    Mine {
        number: mine.number,
        block,
        side: 1 - mine.side,
        seq: seq_after(mine.seq),
    }
}

impl Staged {
    ghost use Rattle.std.specs.Prelude.{◌≡◌, ◌<◌, true};
    ghost use Rattle.lane_table.specs.Fuse.{of_left};
    ghost use Rattle.lane_table.specs.Kits.{IsOf, IsSame, held_in};
    ghost use Rattle.lane_table.specs.Law.{may_enter};
    ghost use Rattle.lane_table.specs.Outcomes.{Commits, CommitNotes};

    /// Sets or takes away the lane's fuse.
    pub fn set_fuse(&mut self, steps: Option<u64>)
        ensures fuse { of_left self.new.kit.fuse ≡ steps }
        ensures same { IsSame self.old.kit self.new.kit }
        ensures seat { self.new.kit.seat ≡ self.old.kit.seat }
        ensures log { self.new.kit.log ≡ self.old.kit.log }
        ensures mine { self.new.mine ≡ self.old.mine }
    {
        self.kit.fuse = Fuse::of(steps);
    }

    /// Commits the write to a sector of the arena. It takes the lock of the sector's map word with
    /// one compare-and-exchange. If another lane has the lock, the lane comes back as it was. Takes
    /// no memory, and never waits.
    pub fn try_commit(self, arena: &Arena, tag: Tag, sector: u32) -> CommitOutcome
        requires arena { IsOf arena.now self.kit }
        requires sector { sector < arena.now.shape.sectors }
        requires pass { may_enter (held_in self.kit) tag ≡ true }
        ensures commits { Commits (record { tag = tag; sector = sector }) self result }
        ensures notes { CommitNotes (record { tag = tag; sector = sector }) self result }
    {
        let Staged { kit, mine } = self;
        let Kit {
            mut seat,
            number,
            made: passes_made,
            mut fuse,
            mut log,
        } = kit;
        let at = commit_words(&arena.shape, mine, sector);
        let call = Call { tag, sector };
        match commit(&arena.table.shared, &mut seat, &mut fuse, at, mine, call) {
            Fate::Done(block) => {
                log.add(written(call));
                CommitOutcome::Done(Lane {
                    kit: kit_of(seat, number, passes_made, fuse, log),
                    mine: mine_after(mine, block),
                })
            }
            Fate::Busy(holder) => {
                let kit = kit_of(seat, number, passes_made, fuse, log);
                let staged = Staged { kit, mine };
                CommitOutcome::MapBusy { staged, holder }
            }
            Fate::Cut(made) => {
                if made >= 7 {
                    log.add(written(call));
                }
                CommitOutcome::Cut(Stopped {
                    kit: kit_of(seat, number, passes_made, fuse, log),
                })
            }
        }
    }
}
