ghost use Rattle.std.specs.Prelude.{◌≡◌, ◌++◌, OnOk, IfOk};
ghost use Rattle.interleave.specs.Places.{cookie_entry, cookie_of};

use nfit_reader::Mapping;
use nvd_words::fletcher64;
use std::alloc::{AllocError, Global};

/// Appends the cookie's entry of a mapping: Region Offset u64, Serial Number u32, Vendor ID u16,
/// Manufacturing Date u16, Manufacturing Location u8, and 31 zero bytes.
fn add_entry(bytes: &mut Vec<u8>, mapping: &Mapping) -> Result<(), AllocError>
    ensures { OnOk result (bytes.new.items ≡ bytes.old.items ++ cookie_entry mapping.now) }
{
    bytes.extend_from_slice(&mapping.offset.to_le_bytes())?;
    bytes.extend_from_slice(&mapping.identity.serial.to_le_bytes())?;
    bytes.extend_from_slice(&mapping.identity.vendor.to_le_bytes())?;
    bytes.extend_from_slice(&mapping.identity.date.to_le_bytes())?;
    bytes.extend_from_slice(&[mapping.identity.location])?;
    bytes.extend_from_slice(&[0; 31])?;
    Ok(())
}

/// Returns the cookie of mappings in order of position.
pub fn cookie(alloc: Global, mappings: &[Mapping]) -> Result<u64, AllocError>
    ensures { IfOk result (λ cookie. cookie ≡ cookie_of mappings.now) }
{
    let mut bytes = Vec::new(alloc);
    for position in 0..mappings.len() {
        add_entry(&mut bytes, &mappings[position])?;
    }
    Ok(fletcher64(&bytes))
}
