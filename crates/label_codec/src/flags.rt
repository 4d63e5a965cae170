//! The flags of a label (UEFI 2.10, section 13.19, Flags).

ghost use Rattle.std.specs.Prelude.{◌≡◌};
ghost use Rattle.label_codec.specs.Flags.{has_rolabel, has_local, has_updating, without_updating, with_updating, updating, updated};

use crate::label::Label;

/// ROLABEL, bit 0: the namespace is read-only.
pub const ROLABEL: u32 = 1;

/// LOCAL, bit 1: the namespace lies on one module alone.
pub const LOCAL: u32 = 2;

/// UPDATING, bit 3: a change of the namespace's labels isn't finished.
pub const UPDATING: u32 = 8;

/// Clears UPDATING in the flags; all other bits are kept.
fn without_updating(flags: u32) -> u32
    ensures { result ≡ without_updating flags }
{
    flags - flags / UPDATING % 2 * UPDATING
}

/// Sets UPDATING in the flags; all other bits are kept.
fn with_updating(flags: u32) -> u32
    ensures { result ≡ with_updating flags }
{
    flags - flags / UPDATING % 2 * UPDATING + UPDATING
}

impl Label {
    /// Returns the label with UPDATING set; all else is the same.
    pub fn with_updating(&self) -> Label
        ensures { result ≡ updating self.now }
    {
        Label {
            flags: with_updating(self.flags),
            ..*self
        }
    }

    /// Returns the label with UPDATING cleared; all else is the same.
    pub fn without_updating(&self) -> Label
        ensures { result ≡ updated self.now }
    {
        Label {
            flags: without_updating(self.flags),
            ..*self
        }
    }

    /// Returns whether ROLABEL is set.
    pub fn is_read_only(&self) -> bool
        ensures { result ≡ has_rolabel self.now.flags }
    {
        self.flags / ROLABEL % 2 == 1
    }

    /// Returns whether LOCAL is set.
    pub fn is_local(&self) -> bool
        ensures { result ≡ has_local self.now.flags }
    {
        self.flags / LOCAL % 2 == 1
    }

    /// Returns whether UPDATING is set.
    pub fn is_updating(&self) -> bool
        ensures { result ≡ has_updating self.now.flags }
    {
        self.flags / UPDATING % 2 == 1
    }
}
