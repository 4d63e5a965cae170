//! The records of a module's bad ranges.
ghost use Rattle.std.specs.Prelude.{◌≡◌, ◌+◌, ◌≤◌, length};
ghost use Rattle.std.specs.List.{list_any};
ghost use Rattle.bad_ranges.specs.Bad.{has_record, range_at};

use nvd_words::{Items, word_at};

/// The size of a record, in bytes: a start and a length of eight bytes each.
pub(crate) const RECORD: usize = 16;

/// The offset of a record's length.
const LENGTH: usize = 8;

/// A range of device addresses that a module reports as unreadable.
#[derive(Clone, Copy)]
pub(crate) struct BadRange {
    /// The first address, in bytes.
    pub(crate) start: u64,
    /// The number of bytes. A range of length 0 has no effect.
    pub(crate) length: u64,
}

impl BadRange {
    /// Returns the record at a byte of an object. It must lie inside.
    pub(crate) fn read(object: &[u8], at: usize) -> BadRange
        requires { at + 16 ≤ length object.now }
        ensures { result ≡ range_at object.now at }
    {
        BadRange {
            start: word_at(object, at),
            length: word_at(object, at + LENGTH),
        }
    }
}

/// Returns whether one of the modules' objects has a record.
pub(crate) fn any_has_record(objects: &[Option<Items<u8>>]) -> bool
    ensures { result ≡ list_any has_record objects.now }
{
    objects.iter().any(|object| match object {
        Some(bytes) => bytes.len() >= RECORD,
        None => false,
    })
}
