//! The building blocks of the formats of persistent memory.
//!
//! Label areas and arenas are made of little-endian numbers of two, four and eight bytes. A
//! checksum guards them, a ring of sequence numbers orders them, and identifiers name them. Each
//! crate that reads or writes a format uses this one.
//!
//! - **Checksum**: Fletcher64 over 32-bit words: the sum of the words in the low half, the sum of
//!   the running sums in the high half. `specs/Fletcher.antt` defines it as a sum and a weighted
//!   sum.
//! - **Ring**: the sequence numbers run 1, 2, 3, 1; 0 is uninitialised. `specs/Ring.antt` defines
//!   when one number is newer than another.
//! - **GUID order**: the first three fields of an identifier are stored with their low byte first,
//!
//!   ```text
//!   text    66f0d379-b4f3-4074-ac43-0d3318b78cdb
//!   bytes   79 d3 f0 66  f3 b4  74 40  ac 43 0d 33 18 b7 8c db
//!   ```
//!
//!   while RFC 9562 stores the bytes in the order of the text. `specs/Guid.antt` states that
//!   converting there and back returns the same identifier.
//! - **Numbers in bytes**: `specs/Bytes.antt`.
//!
//! [`Items`] is a list whose contracts see its items, and [`Flags`] a row of flags, one bit each
//! (`specs/Bits.antt`). A [`Tag`] names a call of a session in logs. Each reader of a format states
//! its refusals as in `specs/Checks.antt`: a list of checks in a fixed order, whose first failing
//! check is the result.
#![tactic(auto)]

mod checksum;
mod flags;
mod guid;
mod items;
mod ring;
mod tag;
mod word;

pub use checksum::{fletcher64, fletcher64_without};
pub use flags::Flags;
pub use guid::{guid_bytes, guid_order_is_its_own_inverse, guid_read};
pub use items::Items;
pub use ring::{seq_newer, seq_next};
pub use tag::Tag;
pub use word::{u16_at, u32_at, word_at};
