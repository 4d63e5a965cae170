//! The texts of values and of cells.
ghost use Rattle.std.specs.Prelude.{◌≡◌, ◌++◌, [], ◌∷◌, IfOk, OnOk, codes, string_bytes};
ghost use Rattle.hex.specs.Hex.{encode_lower};
ghost use Rattle.cut_words.specs.WordBytes.{bytes_of};
ghost use Rattle.arena_open.specs.declared.cell.Cell.TheVariants as cell;
ghost use Rattle.session_script.specs.Texts.{cell_text, is_fill, value_text};

use arena_open::Cell;
use std::alloc::{AllocError, Global};

/// Returns the bytes of words, the low byte of each first.
fn bytes_of(alloc: Global, words: &[u64]) -> Result<Vec<u8>, AllocError>
    ensures { IfOk result (λ bytes. bytes.items ≡ bytes_of words.now) }
{
    let mut bytes = Vec::with_capacity(alloc, words.len() * 8)?;
    for word in words {
        bytes.extend_from_slice(&word.to_le_bytes())?;
    }
    Ok(bytes)
}

/// Returns whether all bytes of these words are this one. It looks at whole words.
fn is_fill(byte: u8, words: &[u64]) -> bool
    ensures { result ≡ is_fill byte (bytes_of words.now) }
{
    let full = u64::from_le_bytes([byte; 8]);
    for word in words {
        if *word != full {
            return false;
        }
    }
    true
}

/// Adds the text of a value that consists of one repeated byte.
fn add_fill(alloc: Global, byte: u8, text: &mut Vec<u8>) -> Result<(), AllocError>
    ensures { OnOk result (text.new.items ≡ text.old.items ++ (codes "fill:" ++ encode_lower (byte ∷ []))) }
{
    let digits = hex::encode(alloc, &[byte])?;
    text.extend_from_slice(b"fill:")?;
    text.extend_from_slice(digits.as_bytes())
}

/// Adds the text of a value as all of its bytes.
fn add_hex(alloc: Global, words: &[u64], text: &mut Vec<u8>) -> Result<(), AllocError>
    ensures { OnOk result (text.new.items ≡ text.old.items ++ (codes "hex:" ++ encode_lower (bytes_of words.now))) }
{
    let bytes = bytes_of(alloc, words)?;
    let digits = hex::encode(alloc, &bytes)?;
    text.extend_from_slice(b"hex:")?;
    text.extend_from_slice(digits.as_bytes())
}

/// Adds the text of a value: `fill:` and its one repeated byte, or `hex:` and all of its bytes, each in two lower-case
/// digits.
fn add_value(alloc: Global, words: &[u64], text: &mut Vec<u8>) -> Result<(), AllocError>
    ensures { OnOk result (text.new.items ≡ text.old.items ++ value_text (bytes_of words.now)) }
{
    match words {
        [] => text.extend_from_slice(b"hex:"),
        [first, ..] => {
            let [byte, ..] = first.to_le_bytes();
            if is_fill(byte, words) {
                add_fill(alloc, byte, text)
            } else {
                add_hex(alloc, words, text)
            }
        }
    }
}

/// Adds the line of a sector's words to a text: `ok` and their value. The one refusal is out of memory; then a part of the line
/// may stand in the text.
pub fn add_words(alloc: Global, words: &[u64], text: &mut Vec<u8>) -> Result<(), AllocError>
    ensures { OnOk result (text.new.items ≡ text.old.items ++ cell_text (cell.Bytes words.now)) }
{
    text.extend_from_slice(b"ok ")?;
    add_value(alloc, words, text)?;
    text.push(b'\n')?;
    Ok(())
}

/// Adds the line of a bad cell to a text.
pub fn add_bad(text: &mut Vec<u8>) -> Result<(), AllocError>
    ensures { OnOk result (text.new.items ≡ text.old.items ++ cell_text cell.Bad) }
{
    text.extend_from_slice(b"bad\n")
}

/// Adds the line of a cell that was read to a text: `ok` and its value, or `bad`. The one refusal is out of memory; then a part
/// of the line may stand in the text.
pub fn add_cell(alloc: Global, cell: &Cell, text: &mut Vec<u8>) -> Result<(), AllocError>
    ensures { OnOk result (text.new.items ≡ text.old.items ++ cell_text cell.now) }
{
    match cell {
        Cell::Bytes(words) => add_words(alloc, words.as_slice(), text),
        Cell::Bad => add_bad(text),
    }
}
