//! Reads the NVDIMM Firmware Interface Table (NFIT), in which the firmware describes a machine's
//! NVDIMMs.
//!
//! ACPI 6.5, section 5.2.25, defines the format. After a header of 40 bytes the table is a sequence
//! of structures up to its Length. Each begins with its Type and its own Length, two bytes each:
//!
//! ```text
//! 0                                    40          96        144              Length
//! | NFIT, Length at 4, Checksum at 9   | SPA range | mapping | control region |
//! ```
//!
//! - **SPA range** (type 0): an address range of the machine, by its index. A persistent-memory
//!   range with at least one mapping is a *region*.
//! - **Region mapping** (type 1): a number of bytes of one *module*, named by its device handle,
//!   that lie in a range.
//! - **Interleave** (type 2): the lines in which the bytes of several modules alternate.
//! - **Control region** (type 4): identifies the module: vendor, date, place, serial number.
//!
//! Structures of other types are skipped, and so are those of types 0, 2 and 4 whose index is 0.
//! Mappings name ranges, control regions and interleave structures by index.
//!
//! [`read_nfit`] returns the table's modules and regions, or the first fault and its place. The
//! definition is `nfit_reading` (`specs/Table.antt`): `spans_from` cuts the table into the bytes of
//! its structures, `structure_of` (`specs/Structures.antt`) decodes each of them, and modules,
//! regions and mappings are selections from that list. The result is the first fault of
//! `header_fault`, `spans_from` and `table_faults`, if there is one. The code makes a few passes
//! over the list and looks indices up in maps (`names`, `modules`, `regions`, `alias`); its
//! contract states that it returns exactly the definition's reading. In a table that is read, no
//! two regions share bytes of a module ([`regions_share_no_bytes`]).
#![tactic(auto)]

mod alias;
mod fields;
mod header;
mod law;
mod modules;
mod names;
mod read;
mod regions;
mod shared;
mod structures;
mod table;

pub use law::regions_share_no_bytes;
pub use read::read_nfit;
pub use shared::Shared;
pub use table::{Identity, Lines, Mapping, Nfit, NfitFault, Region};
