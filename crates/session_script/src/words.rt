//! What a word denotes.
ghost use Rattle.std.specs.Prelude.{◌≡◌, IfOk, Some, None, drop, take, option_map, option_and_then};
ghost use Rattle.std.specs.List.{list_all};
ghost use Rattle.std.specs.Result.{result_ok};
ghost use Rattle.std.specs.Str.{is_utf8};
ghost use Rattle.hex.specs.Hex.{decode_of};
ghost use Rattle.uuid.specs.Text.{parsed};
ghost use Rattle.session_script.specs.Fields.{fill_of, hyphenated, is_plain, is_printable, value_of};

use crate::payload::Payload;
use hex::FromHexError;
use nvd_words::Items;
use std::alloc::{AllocError, Global};
use uuid::Uuid;

/// Returns whether bytes are UTF-8.
fn is_text(bytes: &[u8]) -> bool
    ensures { result ≡ is_utf8 bytes.now }
{
    match str::from_utf8(bytes) {
        Ok(_) => true,
        Err(_) => false,
    }
}

/// Returns whether a byte isn't a control character of ASCII.
fn is_plain(byte: u8) -> bool
    ensures { result ≡ is_plain byte }
{
    32 <= byte && byte != 127
}

fn all_plain(bytes: &[u8]) -> bool
    ensures { result ≡ list_all is_plain bytes.now }
{
    bytes.iter().all(|byte| is_plain(*byte))
}

/// Returns whether a line is UTF-8 without control characters.
pub fn is_printable(text: &[u8]) -> bool
    ensures { result ≡ is_printable text.now }
{
    is_text(text) && all_plain(text)
}

fn any_uuid(word: &[u8]) -> Option<Uuid>
    ensures { result ≡ parsed word.now }
{
    match Uuid::try_parse_ascii(word) {
        Ok(uuid) => Some(uuid),
        Err(_) => None,
    }
}

/// Returns the UUID that a word denotes in the form with hyphens, which alone takes 36 bytes.
pub(crate) fn uuid_in(word: &[u8]) -> Option<Uuid>
    ensures { result ≡ hyphenated word.now }
{
    if word.len() == 36 {
        any_uuid(word)
    } else {
        None
    }
}

/// Returns the bytes that hexadecimal digits stand for, `None` if there aren't two for each byte.
fn bytes_in(alloc: Global, digits: &[u8]) -> Result<Option<Items<u8>>, AllocError>
    ensures { IfOk result (λ bytes. bytes ≡ result_ok (decode_of digits.now)) }
{
    match hex::decode(alloc, digits) {
        Ok(bytes) => Ok(Some(Items::from_vec(bytes))),
        Err(FromHexError::OutOfMemory) => Err(AllocError),
        Err(_) => Ok(None),
    }
}

/// Returns the payload of one byte, `None` for any other number of bytes.
fn fill_of(bytes: &[u8]) -> Option<Payload>
    ensures { result ≡ fill_of bytes.now }
{
    match bytes {
        [byte] => Some(Payload::Fill(*byte)),
        _ => None,
    }
}

/// Returns what the digits after `fill:` say.
fn fill_in(alloc: Global, digits: &[u8]) -> Result<Option<Payload>, AllocError>
    ensures { IfOk result (λ value. value ≡ option_and_then fill_of (result_ok (decode_of digits.now))) }
{
    match bytes_in(alloc, digits)? {
        Some(bytes) => Ok(fill_of(bytes.as_slice())),
        None => Ok(None),
    }
}

/// Returns what the digits after `hex:` say.
fn hex_in(alloc: Global, digits: &[u8]) -> Result<Option<Payload>, AllocError>
    ensures { IfOk result (λ value. value ≡ option_map (λ bytes. Payload.Hex bytes) (result_ok (decode_of digits.now))) }
{
    match bytes_in(alloc, digits)? {
        Some(bytes) => Ok(Some(Payload::Hex(bytes))),
        None => Ok(None),
    }
}

/// Returns the value that a word denotes: `fill:` and two hexadecimal digits, or `hex:` and an even
/// number of them, in either case. It returns `None` for other words.
#[tactic(auto, using(nvd_words::proofs::Checks::choices))]
pub fn value_in(alloc: Global, word: &[u8]) -> Result<Option<Payload>, AllocError>
    ensures { IfOk result (λ value. value ≡ value_of word.now) }
{
    if word.starts_with(b"fill:") {
        fill_in(alloc, &word[5..])
    } else if word.starts_with(b"hex:") {
        hex_in(alloc, &word[4..])
    } else {
        Ok(None)
    }
}
