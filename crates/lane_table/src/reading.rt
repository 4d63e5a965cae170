//! Reads: a lane without a call reads a sector.
use crate::arena::Arena;
use crate::lanes::{Kit, Lane, Stopped, kit_of};
use crate::loading::{Pause, ReadFate, Supplies, read};
use crate::outcome::ReadOutcome;
use crate::table::Call;
use nvd_words::Tag;

/// A read that goes on at once.
#[derive(Drop)]
struct Straight;

impl Pause for Straight {
    fn pause(&mut self) {}
}

impl Lane {
    ghost use Rattle.std.specs.Prelude.{◌≡◌, ◌<◌, true, length};
    ghost use Rattle.lane_table.specs.Kits.{IsOf, spare_in, held_in};
    ghost use Rattle.lane_table.specs.Law.{may_enter};
    ghost use Rattle.lane_table.specs.Outcomes.{Reads, Stands, ReadNotes};

    /// Reads a sector of the arena into `into`. It looks at the sector's entry, says in its reader
    /// word which block it reads, looks at the entry again, and loads the words only if the entry
    /// is the same. Takes no memory, and never waits.
    ///
    /// - Got: the read stands in the history with the cell that is returned; `into` has its
    ///   words, zeros too, and is as it was if the sector is bad. It takes one step if the entry
    ///   says zeros or bad, else four and one for each word, and one of `spare`.
    /// - Moved: the two looks found entries that differ, since a write moved the sector meanwhile.
    ///   It takes four steps, and nothing else has changed: try again.
    /// - Cut: the fuse was spent when a step was due. `into` begins with the words that were
    ///   loaded.
    ///
    /// Conditions: the lane is one of the arena's, which has the sector; `into` has the words of a
    /// sector; the lane has a spare. Source: Linux's BTT document, the read path with its table of
    /// readers.
    pub fn try_read(self, arena: &Arena, tag: Tag, sector: u32, into: &mut [u64]) -> ReadOutcome
        requires arena { IsOf arena.now self.kit }
        requires sector { sector < arena.now.shape.sectors }
        requires into { length into.old ≡ arena.now.shape.width }
        requires spare { 0 < spare_in self.kit }
        requires pass { may_enter (held_in self.kit) tag ≡ true }
        ensures reads { Reads (record { tag = tag; sector = sector }) into.old into.new self result }
        ensures stands { Stands (record { tag = tag; sector = sector }) into.new self result }
        ensures notes { ReadNotes (record { tag = tag; sector = sector }) into.new self result }
    {
        self.try_read_paused(arena, tag, sector, into, &mut Straight)
    }

    /// As [`Lane::try_read`], with a pause between the first look at the entry and the store of the
    /// reader word. There is none if the entry says zeros or bad.
    pub fn try_read_paused<P: Pause>(
        self,
        arena: &Arena,
        tag: Tag,
        sector: u32,
        into: &mut [u64],
        between: &mut P,
    ) -> ReadOutcome
        requires arena { IsOf arena.now self.kit }
        requires sector { sector < arena.now.shape.sectors }
        requires into { length into.old ≡ arena.now.shape.width }
        requires spare { 0 < spare_in self.kit }
        requires pass { may_enter (held_in self.kit) tag ≡ true }
        ensures reads { Reads (record { tag = tag; sector = sector }) into.old into.new self result }
        ensures stands { Stands (record { tag = tag; sector = sector }) into.new self result }
        ensures notes { ReadNotes (record { tag = tag; sector = sector }) into.new self result }
    {
        let Lane { kit, mine } = self;
        let Kit {
            mut seat,
            number,
            made,
            fuse,
            log,
        } = kit;
        let stood = log.count();
        let mut supplies = Supplies { fuse, log };
        let call = Call { tag, sector };
        let fate = read(arena, &mut seat, &mut supplies, number, call, into, between);
        let Supplies { fuse, mut log } = supplies;
        match fate {
            ReadFate::Got(kind) => {
                let kit = kit_of(seat, number, made, fuse, log);
                let lane = Lane { kit, mine };
                ReadOutcome::Got { lane, kind }
            }
            ReadFate::Moved(first, then) => {
                let kit = kit_of(seat, number, made, fuse, log);
                let lane = Lane { kit, mine };
                ReadOutcome::Moved { lane, first, then }
            }
            ReadFate::Cut => {
                log.keep_first(stood);
                ReadOutcome::Cut(Stopped {
                    kit: kit_of(seat, number, made, fuse, log),
                })
            }
        }
    }
}
