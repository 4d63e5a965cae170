//! The lines of a schedule, kept as their text.
ghost use Rattle.std.specs.Prelude.{◌≡◌, ◌++◌, ◌≤◌, ◌<◌, [], length, IfOk, None, Ok, option_to_list};
ghost use Rattle.session_script.specs.Lines.{lines_in};
ghost use Rattle.session_script.specs.ScheduleLines.{lines_stated};

use crate::fault::LineFault;
use crate::lines::{after_line, first_line};
use crate::reading::line_of;
use crate::schedule::ReplayLine;
use std::alloc::{AllocError, Global};
use std::marker::Model;

/// The lines of a schedule. They are kept as their text, and take no more memory than it. Contracts
/// see them as the list of the lines.
#[derive(Debug, Drop)]
pub struct ReplayLines {
    text: Vec<u8>,
}

impl Model for ReplayLines {
    ghost use Rattle.std.specs.Prelude.{List};
    ghost use Rattle.session_script.specs.declared.schedule.ReplayLine.{ReplayLine};
    ghost use Rattle.session_script.specs.Lines.{lines_in};
    ghost use Rattle.session_script.specs.ScheduleLines.{lines_stated};

    ghost Value = { List ReplayLine };

    ghost view = { λ lines. lines_stated (lines_in lines.text.items) };
}

/// The lines of a schedule that weren't asked for yet. Contracts see them as the list of these.
#[derive(Drop)]
pub struct LinesLeft<'a> {
    text: &'a [u8],
}

impl<'a> Model for LinesLeft<'a> {
    ghost use Rattle.std.specs.Prelude.{List};
    ghost use Rattle.session_script.specs.declared.schedule.ReplayLine.{ReplayLine};
    ghost use Rattle.session_script.specs.Lines.{lines_in};
    ghost use Rattle.session_script.specs.ScheduleLines.{lines_stated};

    ghost Value = { List ReplayLine };

    ghost view = { λ left. lines_stated (lines_in left.text.now) };
}

impl ReplayLines {
    /// The lines of a text, up to the first that isn't in the grammar.
    pub(crate) fn of(text: Vec<u8>) -> ReplayLines
        ensures { result ≡ lines_stated (lines_in text.items) }
    {
        ReplayLines { text }
    }

    /// Returns the lines one after another, from the first on.
    pub fn from_first<'a>(&'a self) -> LinesLeft<'a>
        ensures { result ≡ self.now }
    {
        LinesLeft { text: &self.text }
    }
}

impl<'a> LinesLeft<'a> {
    /// Returns the next line, `None` after the last. The call fails only if memory runs out.
    #[tactic(auto, using(crate::proofs::Stated::stated))]
    pub fn next(&mut self, alloc: Global) -> Result<Option<ReplayLine>, AllocError>
        ensures next { IfOk result (λ line. self.old ≡ option_to_list line ++ self.new) }
        ensures end { result ≡ Ok None → self.new ≡ [] }
    {
        if self.text.is_empty() {
            return Ok(None);
        }
        match line_of(alloc, first_line(self.text)) {
            Ok(line) => {
                self.text = after_line(self.text);
                Ok(Some(line))
            }
            Err(LineFault::OutOfMemory) => Err(AllocError),
            Err(LineFault::Kind(_)) => Ok(None),
        }
    }
}
