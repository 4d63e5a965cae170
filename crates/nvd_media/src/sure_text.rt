ghost use Rattle.std.specs.Prelude.{◌≡◌, ◌≤◌, None, Some, true, length, drop};
ghost use Rattle.nvd_media.specs.Memory.{while_whole};

use crate::mem_text::copy_front;
use crate::traits::{Failed, TextSink, TextSource};

/// A text in memory whose calls never fail: its count of failures is always 0.
///
/// As a source it reveals what is left. As a sink it reveals nothing in `written`: a write may find
/// no memory, but it can't report that as a failure. As long as [`SureText::is_whole`] returns
/// true, everything was stored, and `kept` reveals it.
#[derive(Drop)]
pub struct SureText {
    bytes: Vec<u8>,
    /// How many bytes were read.
    at: usize,
    whole: bool,
    ghost inside: { at ≤ length bytes.items },
}

impl SureText {
    /// Makes a text of these bytes.
    pub fn new(bytes: Vec<u8>) -> SureText
        ensures bytes { result.bytes ≡ bytes }
        ensures unread { result.at ≡ 0 }
        ensures whole { result.whole ≡ true }
    {
        SureText {
            bytes,
            at: 0,
            whole: true,
        }
    }

    /// Returns all bytes, including those already read.
    pub fn bytes(&self) -> &[u8]
        ensures { result.now ≡ self.now.bytes.items }
    {
        &self.bytes
    }

    /// Returns whether everything written was stored.
    pub fn is_whole(&self) -> bool
        ensures { result ≡ self.now.whole }
    {
        self.whole
    }
}

impl TextSource for SureText {
    ghost left = { λ text. Some (drop text.at text.bytes.items) };

    ghost faults = { λ _. 0 };

    fn read(&mut self, into: &mut [u8]) -> Result<usize, Failed> {
        let count = copy_front(&self.bytes[self.at..], into);
        self.at += count;
        Ok(count)
    }
}

impl TextSink for SureText {
    ghost written = { λ _. None };

    ghost kept = { λ text. while_whole text.whole text.bytes.items };

    ghost faults = { λ _. 0 };

    fn write(&mut self, bytes: &[u8]) -> Result<(), Failed> {
        if self.bytes.extend_from_slice(bytes).is_err() {
            self.whole = false;
        }
        Ok(())
    }
}
