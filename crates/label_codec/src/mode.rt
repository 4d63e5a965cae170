ghost use Rattle.std.specs.Prelude.{◌≡◌};

use crate::label::Label;
use uuid::Uuid;

/// TypeGuid of persistent memory: 66f0d379-b4f3-4074-ac43-0d3318b78cdb (UEFI 2.10 and ACPI 6.5,
/// byte addressable persistent memory region), in the order of the text. On a medium, in GUID
/// order, the bytes are `79d3f066f3b47440ac430d3318b78cdb`.
pub const PERSISTENT_MEMORY: [u8; 16] = [
    0x66, 0xf0, 0xd3, 0x79, 0xb4, 0xf3, 0x40, 0x74, 0xac, 0x43, 0x0d, 0x33, 0x18, 0xb7, 0x8c, 0xdb,
];

/// AddressAbstractionGuid of a namespace without one: all zero.
pub const NO_ABSTRACTION: [u8; 16] = [0; 16];

/// AddressAbstractionGuid of a Block Translation Table, version 2.0 (UEFI 2.10, section 6.2):
/// 18633bfc-1735-4217-8ac9-17239282d3f8. In GUID order: `fc3b6318351717428ac917239282d3f8`.
pub const BTT_2_0: [u8; 16] = [
    0x18, 0x63, 0x3b, 0xfc, 0x17, 0x35, 0x42, 0x17, 0x8a, 0xc9, 0x17, 0x23, 0x92, 0x82, 0xd3, 0xf8,
];

/// AddressAbstractionGuid of a Block Translation Table, version 1.1, as defined by Linux:
/// 8aed63a2-29a2-4c66-8b12-f05d15d3922a. In GUID order: `a263ed8aa229664c8b12f05d15d3922a`.
pub const BTT_1_1: [u8; 16] = [
    0x8a, 0xed, 0x63, 0xa2, 0x29, 0xa2, 0x4c, 0x66, 0x8b, 0x12, 0xf0, 0x5d, 0x15, 0xd3, 0x92, 0x2a,
];

/// How a namespace is accessed, from the two GUIDs of its label.
#[derive(Clone, Copy, Debug, PartialEq, Eq)]
pub enum Mode {
    /// Persistent memory without an abstraction: byte access.
    Raw,
    /// Persistent memory with a Block Translation Table, version 2.0: sectors.
    Sector,
    /// Persistent memory with a Block Translation Table, version 1.1: sectors.
    Sector1,
    /// Any other pair: the TypeGuid if it isn't persistent memory, else the abstraction.
    Other(Uuid),
}

impl Label {
    ghost use Rattle.label_codec.specs.Mode.{mode_of};

    /// Returns how the label's namespace is accessed.
    #[tactic(auto, using(nvd_words::proofs::Checks::choices))]
    pub fn mode(&self) -> Mode
        ensures { result ≡ mode_of self.now.kind self.now.abstraction }
    {
        if self.kind.into_bytes() != PERSISTENT_MEMORY {
            return Mode::Other(self.kind);
        }
        let abstraction = self.abstraction.into_bytes();
        if abstraction == NO_ABSTRACTION {
            return Mode::Raw;
        }
        if abstraction == BTT_2_0 {
            return Mode::Sector;
        }
        if abstraction == BTT_1_1 {
            return Mode::Sector1;
        }
        Mode::Other(self.abstraction)
    }
}
