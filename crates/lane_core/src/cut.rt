//! A power cut, and the words of an arena at its end.
ghost use Rattle.std.specs.Prelude.{◌≡◌, ℕ, List, length, IfOk};
ghost use Rattle.cut_words.specs.Leaving.{LeavesFrom};
ghost use Rattle.lane_core.specs.Held.{held_by};
ghost use Rattle.lane_core.specs.Machines.{CutSurvives, IsSomeCore};
ghost use Rattle.arena_open.specs.declared.state.ArenaState.{ArenaState};
ghost use Rattle.lane_core.specs.Reopening.{IsCoreOf, IsEither, MaySurvive, Reopens, first_cells};
ghost use Rattle.lane_core.specs.Rows.{words_in};

use crate::arena_words::ArenaWords;
use crate::machine::Core;
use nvd_media::Chooser;
use std::alloc::AllocError;

impl Core {
    /// The arena's words after a power cut.
    ///
    /// The chooser is asked once for each word that was stored since its last keep, in rising
    /// order, even if the stored value is the kept one. Whatever it says, opening finds each block
    /// once, and each sector has its cell at the end of the history or the words of one write in
    /// flight.
    ///
    /// Words that no lane stores (info blocks, padding) stay as they were when the arena was
    /// opened. So if the arena's words opened in a namespace, these words open in their place, as
    /// the same arena and with these cells (`specs/Reopening.antt`).
    pub fn cut<C: Chooser>(self, choose: &mut C) -> Vec<u64>
        requires core { IsSomeCore self }
        ensures asked { LeavesFrom C.picks 0 (words_in self.row).kept (words_in self.row).stored result.items choose.old choose.new }
        ensures survives { CutSurvives self result.items }
        ensures reopens { (state : ArenaState) → IsCoreOf state self → Reopens state (MaySurvive (first_cells state) (held_by self)) result.items }
    {
        self.row.leave(choose)
    }

    /// The arena's words when no lane steps any more, as a load returns them and as they are kept.
    ///
    /// A power cut then leaves of each word either value. Whichever it leaves of each, the words
    /// open as those of [`Core::cut`] do. The one refusal is out of memory.
    pub fn into_words(self) -> Result<ArenaWords, AllocError>
        requires core { IsSomeCore self }
        ensures kept { IfOk result (λ made. made.kept.items ≡ (words_in self.row).kept) }
        ensures same_length { IfOk result (λ made. length made.seen.items ≡ length made.kept.items) }
        ensures reopens { IfOk result (λ made. (state : ArenaState) (left : List ℕ) → IsCoreOf state self → IsEither made.kept.items made.seen.items left → Reopens state (MaySurvive (first_cells state) (held_by self)) left) }
    {
        self.row.into_words()
    }
}
