//! An idle lane: what it can be asked, and how it stages a write.
use crate::arena::Arena;
use crate::fuse::Fuse;
use crate::lanes::{Kit, Lane, Staged, Stopped, kit_of};
use crate::outcome::StageOutcome;
use crate::staging::{StageFate, stage};
use std::alloc::AllocError;

impl Lane {
    ghost use Rattle.std.specs.Prelude.{◌≡◌, ◌<◌, ◌≤◌, length, OnOk};
    ghost use Rattle.lane_table.specs.Fuse.{of_left};
    ghost use Rattle.lane_table.specs.Kits.{IsOf, IsSame, spare_in};
    ghost use Rattle.lane_table.specs.Outcomes.{Stages};

    /// The lane's number.
    pub fn number(&self) -> u32
        ensures { result ≡ self.now.kit.number }
    {
        self.kit.number
    }

    /// How many more calls there is room for.
    pub fn spare(&self) -> usize
        ensures { result ≡ spare_in self.now.kit }
    {
        self.kit.log.spare
    }

    /// The steps that are left, if a fuse is set.
    pub fn left(&self) -> Option<u64>
        ensures { result ≡ of_left self.now.kit.fuse }
    {
        self.kit.fuse.left()
    }

    /// Sets or takes away the lane's fuse.
    pub fn set_fuse(&mut self, steps: Option<u64>)
        ensures fuse { of_left self.new.kit.fuse ≡ steps }
        ensures same { IsSame self.old.kit self.new.kit }
        ensures seat { self.new.kit.seat ≡ self.old.kit.seat }
        ensures log { self.new.kit.log ≡ self.old.kit.log }
        ensures mine { self.new.mine ≡ self.old.mine }
    {
        self.kit.fuse = Fuse::of(steps);
    }

    /// Reserves room for this many calls, 16 bytes each, so that they take no memory. The only
    /// refusal is out of memory.
    pub fn reserve(&mut self, calls: usize) -> Result<(), AllocError>
        ensures enough { OnOk result (calls ≤ spare_in self.new.kit) }
        ensures more { spare_in self.old.kit ≤ spare_in self.new.kit }
        ensures same { IsSame self.old.kit self.new.kit }
        ensures seat { self.new.kit.seat ≡ self.old.kit.seat }
        ensures fuse { self.new.kit.fuse ≡ self.old.kit.fuse }
        ensures mine { self.new.mine ≡ self.old.mine }
    {
        self.kit.log.reserve(calls)
    }

    /// Stages a write of these words: looks once at each other lane's reader word, stores the words
    /// in the free block, and keeps them. If another lane reads the free block, the lane comes back
    /// idle. Takes no memory, and never waits.
    pub fn try_stage(self, arena: &Arena, words: &[u64]) -> StageOutcome
        requires arena { IsOf arena.now self.kit }
        requires words { length words.now ≡ arena.now.shape.width }
        requires spare { 0 < spare_in self.kit }
        ensures stages { Stages words.now self result }
    {
        let Lane { kit, mine } = self;
        let Kit {
            mut seat,
            number,
            made,
            mut fuse,
            mut log,
        } = kit;
        let table = &arena.table.shared;
        let fate = stage(table, &mut seat, &mut fuse, &arena.shape, mine, words);
        match fate {
            StageFate::Staged => {
                log.take_room();
                let kit = kit_of(seat, number, made, fuse, log);
                StageOutcome::Staged(Staged { kit, mine })
            }
            StageFate::Tracked(reader) => {
                let kit = kit_of(seat, number, made, fuse, log);
                StageOutcome::Tracked {
                    lane: Lane { kit, mine },
                    reader,
                    block: mine.block,
                }
            }
            StageFate::Cut => StageOutcome::Cut(Stopped {
                kit: kit_of(seat, number, made, fuse, log),
            }),
        }
    }
}
