//! Calls begin.
ghost use Rattle.std.specs.Prelude.{◌≡◌, ◌<◌, ◌≤◌, true, false, length, replicate, IfSome, OnOk, OnErr};
ghost use Rattle.lane_core.specs.Machines.{IsSomeCore, KeepsCore};
ghost use Rattle.lane_core.specs.Keeping.{Keeps};
ghost use Rattle.lane_core.specs.Sessions.{IsFree, ServesSessions};
ghost use Rattle.lane_core.specs.Begins.{read_begun, write_begun, is_idle, BusyExactly, CallBegins, FitsCall, HasRoom, IsIdleLane, ReadBegins, ReadStarts, WriteStarts};

use crate::buffer::Buffer;
use crate::call::{Begun, Call};
use crate::machine::Core;
use crate::now::LaneNow;
use crate::phase::Phase;
use crate::shape::Shape;
use nvd_words::Tag;
use std::alloc::Global;

/// Whether a lane is idle.
fn is_idle(phase: Phase) -> bool
    ensures { result ≡ is_idle phase }
{
    matches!(phase, Phase::Idle)
}

fn set_read(mine: &mut LaneNow, tag: Tag, sector: u32, words: Buffer, cell: Buffer)
    ensures { mine.new ≡ read_begun mine.old tag sector words cell }
{
    mine.phase = Phase::Called;
    mine.tag = tag;
    mine.sector = sector;
    mine.words = words;
    mine.cell = cell;
}

fn set_write(mine: &mut LaneNow, shape: &Shape, tag: Tag, sector: u32, words: Buffer)
    ensures { mine.new ≡ write_begun shape.now mine.old tag sector words }
{
    mine.phase = if shape.lanes == 1 {
        Phase::Staging(0)
    } else {
        Phase::Scanning(0)
    };
    mine.words = words;
    mine.next = tag;
    mine.next_sector = sector;
}

/// The room for the words of a read, and for the cell of its entry.
fn read_room(alloc: Global, width: u32) -> Option<(Buffer, Buffer)>
    ensures { IfSome result (λ made. (made.0 ≡ replicate width 0) × (made.1 ≡ replicate width 0)) }
{
    let Ok(words) = Buffer::zeros(alloc, width as usize) else {
        return None;
    };
    let Ok(cell) = Buffer::zeros(alloc, width as usize) else {
        return None;
    };
    Some((words, cell))
}

impl Core {
    /// Makes room for an entry of each lane.
    fn make_room(&mut self) -> bool
        ensures room { result ≡ true → HasRoom self.old self.new }
        ensures refused { result ≡ false → self.new ≡ self.old }
    {
        let count = self.lanes.len();
        self.history.reserve(count).is_ok()
    }

    /// Puts an idle lane in a read.
    fn start_read(&mut self, lane: u32, tag: Tag, sector: u32, words: Buffer, cell: Buffer)
        requires core { IsSomeCore self.old }
        requires lane { IsIdleLane self.old lane }
        requires sector { sector < self.old.shape.sectors }
        requires words { (length words ≡ self.old.shape.width) × (length cell ≡ self.old.shape.width) }
        requires room { length self.old.lanes.items ≤ self.old.history.room }
        ensures core { KeepsCore self.old self.new }
        ensures begun { ReadStarts self.old self.new lane tag sector words cell }
    {
        let mine = &mut self.lanes[lane as usize];
        set_read(mine, tag, sector, words, cell);
    }

    /// Puts an idle lane in a write.
    fn start_write(&mut self, lane: u32, tag: Tag, sector: u32, words: Buffer)
        requires core { IsSomeCore self.old }
        requires lane { IsIdleLane self.old lane }
        requires sector { sector < self.old.shape.sectors }
        requires words { length words ≡ self.old.shape.width }
        requires room { length self.old.lanes.items ≤ self.old.history.room }
        ensures core { KeepsCore self.old self.new }
        ensures begun { WriteStarts self.old self.new lane tag sector words }
    {
        let mine = &mut self.lanes[lane as usize];
        set_write(mine, &self.shape, tag, sector, words);
    }

    /// Begins a read in an idle lane. Returns false if it is out of memory.
    fn begin_read(&mut self, alloc: Global, lane: u32, tag: Tag, sector: u32) -> bool
        requires core { IsSomeCore self.old }
        requires lane { IsIdleLane self.old lane }
        requires sector { sector < self.old.shape.sectors }
        ensures core { KeepsCore self.old self.new }
        ensures refused { result ≡ false → self.new ≡ self.old }
        ensures begun { result ≡ true → ReadBegins self.old self.new lane tag sector }
    {
        let Some((words, cell)) = read_room(alloc, self.shape.width) else {
            return false;
        };
        if !self.make_room() {
            return false;
        }
        self.start_read(lane, tag, sector, words, cell);
        true
    }

    /// Begins a write in an idle lane. Returns false if it is out of memory.
    fn begin_write(&mut self, lane: u32, tag: Tag, sector: u32, words: Vec<u64>) -> bool
        requires core { IsSomeCore self.old }
        requires lane { IsIdleLane self.old lane }
        requires sector { sector < self.old.shape.sectors }
        requires words { length words.items ≡ self.old.shape.width }
        ensures core { KeepsCore self.old self.new }
        ensures refused { result ≡ false → self.new ≡ self.old }
        ensures begun { result ≡ true → WriteStarts self.old self.new lane tag sector words.items }
    {
        if !self.make_room() {
            return false;
        }
        self.start_write(lane, tag, sector, Buffer::from_vec(words));
        true
    }

    /// Begins a call in an idle lane. Returns false if it is out of memory.
    fn begin_idle(&mut self, alloc: Global, lane: u32, tag: Tag, call: Call) -> bool
        requires core { IsSomeCore self.old }
        requires lane { IsIdleLane self.old lane }
        requires call { FitsCall self.old.shape call }
        ensures core { KeepsCore self.old self.new }
        ensures refused { result ≡ false → self.new ≡ self.old }
        ensures begun { result ≡ true → CallBegins self.old self.new lane tag call }
    {
        match call {
            Call::Read { sector } => self.begin_read(alloc, lane, tag, sector),
            Call::Write { sector, words } => self.begin_write(lane, tag, sector, words),
        }
    }

    /// Begins a call in a lane, with room for its entry and its answer, so that no step needs
    /// memory.
    ///
    /// Refusals: `LaneBusy`, if and only if the lane isn't idle; `OutOfMemory`. A refused call
    /// changes nothing. Conditions: the lane and the sector exist, and a value has as many words as
    /// a sector.
    pub fn begin(&mut self, alloc: Global, lane: u32, tag: Tag, call: Call) -> Result<(), Begun>
        requires core { IsSomeCore self.old }
        requires lane { lane < self.old.shape.lanes }
        requires call { FitsCall self.old.shape call }
        ensures keeps { Keeps self.old self.new }
        ensures serves { ServesSessions self.old → IsFree tag.session self.old.lanes.items → ServesSessions self.new }
        ensures busy { BusyExactly self.old lane result }
        ensures refused { OnErr result (self.new ≡ self.old) }
        ensures begun { OnOk result (CallBegins self.old self.new lane tag call) }
    {
        let phase = self.phase(lane);
        if is_idle(phase) {
            if self.begin_idle(alloc, lane, tag, call) {
                Ok(())
            } else {
                Err(Begun::OutOfMemory)
            }
        } else {
            Err(Begun::LaneBusy { phase })
        }
    }
}
