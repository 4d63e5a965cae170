//! The header of the table: the 36 bytes of a system description table and 4 reserved bytes (ACPI
//! 6.5, section 5.2.25).

ghost use Rattle.std.specs.Prelude.{◌≡◌, ◌%◌, length, slice_index, sum, take, codes};
ghost use Rattle.std.specs.Str.{bytes_eq};
ghost use Rattle.nfit_reader.specs.Table.{said_of, header_fault};

use crate::table::NfitFault;
use byteorder::{ByteOrder, LittleEndian};

/// The offset of the first structure.
pub(crate) const HEADER_BYTES: u32 = 40;

/// The offset of the Length field, u32.
const LENGTH_AT: usize = 4;

const SIGNATURE: &[u8; 4] = b"NFIT";

/// Returns the Length field. A missing byte of it counts as zero.
pub(crate) fn said(bytes: &[u8]) -> u32
    ensures { result ≡ said_of bytes.now }
{
    LittleEndian::read_u32(&[
        byte_or_zero(bytes, LENGTH_AT),
        byte_or_zero(bytes, LENGTH_AT + 1),
        byte_or_zero(bytes, LENGTH_AT + 2),
        byte_or_zero(bytes, LENGTH_AT + 3),
    ])
}

fn byte_or_zero(bytes: &[u8], at: usize) -> u8
    ensures { result ≡ slice_index bytes.now at }
{
    bytes.get(at).copied().unwrap_or(0)
}

fn has_signature(bytes: &[u8]) -> bool
    ensures { result ≡ bytes_eq (take 4 bytes.now) (codes "NFIT") }
{
    &bytes[..bytes.len().min(SIGNATURE.len())] == SIGNATURE.as_slice()
}

/// The sum of bytes, modulo 256.
fn sum_of(bytes: &[u8]) -> u8
    ensures { result ≡ sum bytes.now % 256 }
{
    let mut total = 0u8;
    for byte in bytes {
        total = total.wrapping_add(*byte);
    }
    total
}

/// Returns what is wrong with the table before its structures are read: the signature, the Length,
/// or the checksum over all bytes up to Length. Bytes past Length are ignored.
#[tactic(auto, using(crate::proofs::Firsts::firsts), unfolding(crate::specs::Table::header_fault))]
pub(crate) fn header_fault(bytes: &[u8]) -> Option<NfitFault>
    ensures { result ≡ header_fault bytes.now }
{
    let said = said(bytes);
    if !has_signature(bytes) {
        return Some(NfitFault::Signature);
    }
    if bytes.len() < said as usize || said < HEADER_BYTES {
        return Some(NfitFault::Length {
            said,
            had: bytes.len() as u64,
        });
    }
    let sum = sum_of(&bytes[..said as usize]);
    if sum != 0 {
        return Some(NfitFault::Checksum { sum });
    }
    None
}
