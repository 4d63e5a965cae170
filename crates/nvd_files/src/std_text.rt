ghost use Rattle.std.specs.Prelude.{◌≡◌, ◌≤◌, None};
ghost use Rattle.nvd_media.specs.Causes.{Rose};

use nvd_media::{Failed, TextSink, TextSource};
use std::io::Read;

/// Standard input and standard output.
///
/// It reveals no bytes. A read or a write that the system refuses is a counted failure.
#[derive(Drop)]
pub struct StdText<'a, R: Print + Input> {
    rt: &'a R,
    faults: u64,
}

impl<'a, R: Print + Input> StdText<'a, R> {
    /// Makes the standard streams of a runtime.
    pub fn new(rt: &'a R) -> StdText<'a, R> {
        StdText { rt, faults: 0 }
    }

    fn fail(&mut self) -> Failed
        ensures later { self.old.faults ≤ self.new.faults }
        ensures rose { Rose self.old.faults self.new.faults }
    {
        self.faults = self.faults.saturating_add(1);
        Failed
    }
}

impl<R: Print + Input> TextSource for StdText<'_, R> {
    ghost left = { λ _. None };

    ghost faults = { λ text. text.faults };

    fn read(&mut self, into: &mut [u8]) -> Result<usize, Failed> {
        match self.rt.reader().read(into) {
            Ok(count) => Ok(count),
            Err(_) => Err(self.fail()),
        }
    }
}

impl<R: Print + Input> TextSink for StdText<'_, R> {
    ghost written = { λ _. None };

    ghost kept = { λ _. None };

    ghost faults = { λ text. text.faults };

    fn write(&mut self, bytes: &[u8]) -> Result<(), Failed> {
        match self.rt.write_all(bytes) {
            Ok(()) => Ok(()),
            Err(_) => Err(self.fail()),
        }
    }
}
