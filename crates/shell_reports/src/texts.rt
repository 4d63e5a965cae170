//! The texts of values in lines.
ghost use Rattle.std.specs.Prelude.{◌≡◌, ◌++◌, ◌∷◌, [], IfOk, string_bytes, codes};
ghost use Rattle.hex.specs.Hex.{encode_lower};
ghost use Rattle.shell_reports.specs.Texts.{escaped, name_text, mode_text, label_fault_text};

use label_codec::{LabelFault, Mode, SizeField};
use session_script::is_printable;
use std::alloc::{AllocError, Global};

/// Returns a text with a backslash before each quotation mark and each backslash.
fn escaped(alloc: Global, text: &[u8]) -> Result<Vec<u8>, AllocError>
    ensures { IfOk result (λ bytes. bytes.items ≡ escaped text.now) }
{
    let mut bytes = Vec::new(alloc);
    let mut rest = text;
    while let [byte, others @ ..] = rest {
        if *byte == b'"' || *byte == b'\\' {
            bytes.push(b'\\')?;
        }
        bytes.push(*byte)?;
        rest = others;
    }
    Ok(bytes)
}

/// Returns a name in quotation marks, or in hexadecimal digits if it isn't printable.
pub fn name_text(alloc: Global, name: &[u8]) -> Result<Vec<u8>, AllocError>
    ensures { IfOk result (λ bytes. bytes.items ≡ name_text name.now) }
{
    if is_printable(name) {
        quoted(alloc, name)
    } else {
        in_digits(alloc, name)
    }
}

fn quoted(alloc: Global, name: &[u8]) -> Result<Vec<u8>, AllocError>
    ensures { IfOk result (λ bytes. bytes.items ≡ 34 ∷ escaped name.now ++ 34 ∷ []) }
{
    let inner = escaped(alloc, name)?;
    let mut bytes = Vec::from_slice(alloc, b"\"")?;
    bytes.extend_from_slice(&inner)?;
    bytes.push(b'"')?;
    Ok(bytes)
}

fn in_digits(alloc: Global, name: &[u8]) -> Result<Vec<u8>, AllocError>
    ensures { IfOk result (λ bytes. bytes.items ≡ codes "hex:" ++ encode_lower name.now) }
{
    let digits = hex::encode(alloc, name)?;
    Ok(format!(in alloc; "hex:{}", digits)?.into_bytes())
}

/// The text of a mode.
pub fn mode_text(alloc: Global, mode: Mode) -> Result<String, AllocError>
    ensures { IfOk result (λ text. string_bytes text ≡ mode_text mode) }
{
    match mode {
        Mode::Raw => String::from_str(alloc, "raw"),
        Mode::Sector => String::from_str(alloc, "sector"),
        Mode::Sector1 => String::from_str(alloc, "sector1"),
        Mode::Other(guid) => format!(in alloc; "other:{}", guid),
    }
}

/// Returns the text of why a slot has no valid label.
pub fn label_fault_text(alloc: Global, fault: LabelFault) -> Result<String, AllocError>
    ensures { IfOk result (λ text. string_bytes text ≡ label_fault_text fault) }
{
    match fault {
        LabelFault::Checksum => String::from_str(alloc, "Checksum"),
        LabelFault::Slot { said } => format!(in alloc; "Slot {}", said),
        LabelFault::OddSize { field } => match field {
            SizeField::Dpa => String::from_str(alloc, "OddSize Dpa"),
            SizeField::RawSize => String::from_str(alloc, "OddSize RawSize"),
        },
    }
}
