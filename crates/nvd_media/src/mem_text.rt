ghost use Rattle.std.specs.Prelude.{◌≡◌, ◌≤◌, Some, length, drop, min, take};

use crate::failures::Failures;
use crate::traits::{Failed, TextSink, TextSource};

/// A text in memory, read from its front and written at its end, with the numbers of the calls that
/// fail.
///
/// It reveals its bytes.
#[derive(Drop)]
pub struct MemText {
    bytes: Vec<u8>,
    /// How many bytes were read.
    at: usize,
    failures: Failures,
    ghost inside: { at ≤ length bytes.items },
}

/// Copies bytes from the front until either end is reached, and returns how many.
pub(crate) fn copy_front(bytes: &[u8], into: &mut [u8]) -> usize
    ensures count { result ≡ min (length into.new) (length bytes.now) }
    ensures front { take result into.new ≡ take result bytes.now }
{
    let count = into.len().min(bytes.len());
    into[..count].copy_from_slice(&bytes[..count]);
    count
}

impl MemText {
    /// Makes a text of these bytes. The calls with these numbers fail, counted from 0 over calls of
    /// every kind.
    pub fn new(bytes: Vec<u8>, failing: Vec<u64>) -> MemText
        ensures bytes { result.bytes ≡ bytes }
        ensures unread { result.at ≡ 0 }
        ensures faults { result.failures.faults ≡ 0 }
    {
        MemText {
            bytes,
            at: 0,
            failures: Failures::new(failing),
        }
    }

    /// Returns all bytes, including those already read.
    pub fn bytes(&self) -> &[u8]
        ensures { result.now ≡ self.now.bytes.items }
    {
        &self.bytes
    }
}

impl TextSource for MemText {
    ghost left = { λ text. Some (drop text.at text.bytes.items) };

    ghost faults = { λ text. text.failures.faults };

    fn read(&mut self, into: &mut [u8]) -> Result<usize, Failed> {
        self.failures.next_call()?;
        let count = copy_front(&self.bytes[self.at..], into);
        self.at += count;
        Ok(count)
    }
}

impl TextSink for MemText {
    ghost written = { λ text. Some text.bytes.items };

    ghost kept = { λ text. Some text.bytes.items };

    ghost faults = { λ text. text.failures.faults };

    fn write(&mut self, bytes: &[u8]) -> Result<(), Failed> {
        self.failures.next_call()?;
        match self.bytes.extend_from_slice(bytes) {
            Ok(()) => Ok(()),
            Err(_) => Err(self.failures.fail()),
        }
    }
}
