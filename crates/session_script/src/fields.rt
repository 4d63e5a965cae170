//! The fields of a line, read from left to right.
ghost use Rattle.std.specs.Prelude.{◌≡◌, ◌≢◌, ◌≤◌, IfOk, IfErr, Ok, Err, Some, None, option_map};
ghost use Rattle.session_script.specs.Lines.{before, after};
ghost use Rattle.session_script.specs.Fields.{rest_of, at_end, name_field, number_field, u32_field, u64_field, uuid_field, value_field, word_field};

use crate::fault::{LineFault, LineKind};
use crate::lines::{count_before, text_from};
use crate::payload::Payload;
use crate::words::{uuid_in, value_in};
use command_words::number_in;
use nvd_words::Items;
use std::alloc::Global;
use uuid::Uuid;

/// What stands after the last blank that was read, `None` after the end of the line.
#[derive(Drop)]
pub(crate) struct Fields<'a> {
    rest: Option<&'a [u8]>,
}

/// What stands after the first blank of a text, `None` if it has none.
#[tactic(auto, using(crate::proofs::Parts::parts))]
fn after_blank<'a>(text: &'a [u8]) -> Option<&'a [u8]>
    ensures { option_map (λ rest. rest.now) result ≡ after 32 text.now }
{
    let count = count_before(text, b' ');
    if count == text.len() {
        return None;
    }
    Some(text_from(text, count + 1))
}

/// What stands before the first blank of a text: all of it if it has none.
#[tactic(auto, using(crate::proofs::Parts::parts))]
fn before_blank<'a>(text: &'a [u8]) -> &'a [u8]
    ensures { result.now ≡ before 32 text.now }
{
    &text[..count_before(text, b' ')]
}

impl<'a> Fields<'a> {
    /// The fields of a whole line.
    pub(crate) fn of(line: &'a [u8]) -> Fields<'a>
        ensures { rest_of result ≡ Some line.now }
    {
        Fields { rest: Some(line) }
    }

    /// Returns the next field as it stands.
    pub(crate) fn word(&mut self) -> Result<&'a [u8], LineFault>
        ensures ok { IfOk result (λ word. word_field (rest_of self.old) ≡ Ok (word.now, rest_of self.new)) }
        ensures err { IfErr result (λ fault. word_field (rest_of self.old) ≡ Err fault) }
    {
        let Some(text) = self.rest else {
            return Err(LineFault::Kind(LineKind::Word));
        };
        self.rest = after_blank(text);
        Ok(before_blank(text))
    }

    fn number(&mut self, most: u64) -> Result<u64, LineFault>
        ensures ok { IfOk result (λ number. number_field most (rest_of self.old) ≡ Ok (number, rest_of self.new)) }
        ensures err { IfErr result (λ fault. number_field most (rest_of self.old) ≡ Err fault) }
        ensures within { IfOk result (λ number. number ≤ most) }
    {
        let word = self.word()?;
        match number_in(word, most) {
            Some(number) => Ok(number),
            None => Err(LineFault::Kind(LineKind::Number)),
        }
    }

    /// Reads a number of at most 64 bits.
    pub(crate) fn u64(&mut self) -> Result<u64, LineFault>
        ensures ok { IfOk result (λ number. u64_field (rest_of self.old) ≡ Ok (number, rest_of self.new)) }
        ensures err { IfErr result (λ fault. u64_field (rest_of self.old) ≡ Err fault) }
    {
        self.number(u64::MAX)
    }

    /// Reads a number of at most 32 bits.
    pub(crate) fn u32(&mut self) -> Result<u32, LineFault>
        ensures ok { IfOk result (λ number. u32_field (rest_of self.old) ≡ Ok (number, rest_of self.new)) }
        ensures err { IfErr result (λ fault. u32_field (rest_of self.old) ≡ Err fault) }
    {
        let number = self.number(u64::from(u32::MAX))?;
        Ok(number as u32)
    }

    /// Reads the value of a sector.
    pub(crate) fn value(&mut self, alloc: Global) -> Result<Payload, LineFault>
        ensures ok { IfOk result (λ value. value_field (rest_of self.old) ≡ Ok (value, rest_of self.new)) }
        ensures err { IfErr result (λ fault. fault ≢ LineFault.OutOfMemory → value_field (rest_of self.old) ≡ Err fault) }
    {
        let word = self.word()?;
        match value_in(alloc, word) {
            Ok(Some(value)) => Ok(value),
            Ok(None) => Err(LineFault::Kind(LineKind::Value)),
            Err(_) => Err(LineFault::OutOfMemory),
        }
    }

    /// Reads a UUID in the form with hyphens.
    pub(crate) fn uuid(&mut self) -> Result<Uuid, LineFault>
        ensures ok { IfOk result (λ uuid. uuid_field (rest_of self.old) ≡ Ok (uuid, rest_of self.new)) }
        ensures err { IfErr result (λ fault. uuid_field (rest_of self.old) ≡ Err fault) }
    {
        let word = self.word()?;
        match uuid_in(word) {
            Some(uuid) => Ok(uuid),
            None => Err(LineFault::Kind(LineKind::Uuid)),
        }
    }

    /// Reads a name, which is all that is left of the line.
    pub(crate) fn name(&mut self, alloc: Global) -> Result<Items<u8>, LineFault>
        ensures ok { IfOk result (λ name. name_field (rest_of self.old) ≡ Ok (name, rest_of self.new)) }
        ensures err { IfErr result (λ fault. fault ≢ LineFault.OutOfMemory → name_field (rest_of self.old) ≡ Err fault) }
    {
        let Some(text) = self.rest else {
            return Err(LineFault::Kind(LineKind::Name));
        };
        self.rest = None;
        match Vec::from_slice(alloc, text) {
            Ok(bytes) => Ok(Items::from_vec(bytes)),
            Err(_) => Err(LineFault::OutOfMemory),
        }
    }

    /// Returns a line whose fields were all read, if nothing stands after them.
    pub(crate) fn end<B: Drop>(&self, value: B) -> Result<B, LineFault>
        ensures { result ≡ at_end (rest_of self.now) value }
    {
        match self.rest {
            None => Ok(value),
            Some(_) => Err(LineFault::Kind(LineKind::Word)),
        }
    }
}
