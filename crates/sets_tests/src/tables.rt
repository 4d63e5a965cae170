//! Firmware tables made for the tests (ACPI 6.5, section 5.2.25).
use interleave::{InterleaveSet, SetFault, interleave_set};
use nfit_reader::read_nfit;
use std::alloc::{AllocError, Global};

/// A mapping of a module into a range, and its lines of a stripe: none if `line` is 0, else two.
#[derive(Clone, Copy)]
pub struct Map {
    /// The device handle.
    pub handle: u64,
    /// The index of the range, from 1 on.
    pub range: u64,
    pub start: u64,
    pub size: u64,
    pub ways: u64,
    /// The Region Offset and the Line Size in bytes, and the offsets of the lines in lines.
    pub offset: u64,
    pub line: u64,
    pub lines: [u64; 2],
}

/// Appends numbers, each with its width in bytes, the low byte first.
fn add(bytes: &mut Vec<u8>, numbers: &[(u64, u8)]) -> Result<(), AllocError> {
    for (value, count) in numbers {
        let mut left = *value;
        for _ in 0..*count {
            bytes.push((left % 256) as u8)?;
            left /= 256;
        }
    }
    Ok(())
}

fn add_range(bytes: &mut Vec<u8>, index: u64, length: u64) -> Result<(), AllocError> {
    let persistent = [(0x4074_b4f3_66f0_d379, 8), (0xdb8c_b718_330d_43ac, 8)];
    add(bytes, &[(56 << 16, 4), (index, 12)])?;
    add(bytes, &persistent)?;
    add(bytes, &[(index << 32, 8), (length, 8), (0, 8)])
}

/// Appends a mapping, its lines, and the module's control region.
fn add_mapping(bytes: &mut Vec<u8>, index: u64, map: &Map) -> Result<(), AllocError> {
    let lines = if map.line == 0 { 0 } else { index };
    add(
        bytes,
        &[
            (48 << 16 | 1, 4),
            (map.handle, 8),
            (map.range, 2),
            (index, 2),
        ],
    )?;
    add(
        bytes,
        &[
            (map.size, 8),
            (map.offset, 8),
            (map.start, 8),
            (lines, 2),
            (map.ways, 6),
        ],
    )?;
    if lines > 0 {
        add(
            bytes,
            &[(24 << 16 | 2, 4), (lines, 4), (2, 4), (map.line, 4)],
        )?;
        add(bytes, &[(map.lines[0], 4), (map.lines[1], 4)])?;
    }
    add(bytes, &[(32 << 16 | 4, 4), (index, 28)])
}

/// Sets Checksum so that the table's bytes add up to 0.
fn sealed(mut bytes: Vec<u8>) -> Vec<u8> {
    let mut sum = 0u8;
    for byte in &bytes {
        sum = sum.wrapping_add(*byte);
    }
    if let Some(byte) = bytes.get_mut(9) {
        *byte = byte.wrapping_sub(sum);
    }
    bytes
}

/// Returns a table of ranges of these lengths, and of mappings into them.
pub fn table(alloc: Global, ranges: &[u64], maps: &[Map]) -> Result<Vec<u8>, AllocError> {
    let mut body = Vec::new(alloc);
    for (index, length) in ranges.iter().enumerate() {
        add_range(&mut body, (index as u64).wrapping_add(1), *length)?;
    }
    for (index, map) in maps.iter().enumerate() {
        add_mapping(&mut body, (index as u64).wrapping_add(1), map)?;
    }
    let mut bytes = Vec::from_slice(alloc, b"NFIT")?;
    add(
        &mut bytes,
        &[((body.len() as u64).wrapping_add(40), 4), (1, 32)],
    )?;
    bytes.extend_from_slice(&body)?;
    Ok(sealed(bytes))
}

/// Returns the set of the first region of a table.
pub fn first_set(alloc: Global, bytes: &[u8]) -> Result<InterleaveSet, SetFault> {
    let Ok(nfit) = read_nfit(alloc, bytes) else {
        return Err(SetFault::OutOfMemory);
    };
    if nfit.regions.len() == 0 {
        return Err(SetFault::OutOfMemory);
    }
    interleave_set(alloc, &nfit, 0)
}

/// Returns a set of two modules with two alternating lines of 4,096 bytes each. The mappings have
/// `size` bytes each, from address 0 on.
pub fn two_modules(alloc: Global, size: u64) -> Result<InterleaveSet, SetFault> {
    let one = Map {
        handle: 1,
        range: 1,
        start: 0,
        size,
        ways: 2,
        offset: 0,
        line: 4096,
        lines: [0, 2],
    };
    let two = Map {
        handle: 2,
        offset: 4096,
        ..one
    };
    first_set(alloc, &table(alloc, &[size.wrapping_mul(2)], &[one, two])?)
}
