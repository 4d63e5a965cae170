ghost use Rattle.std.specs.Prelude.{◌≡◌};

/// The name of an object of an image set. Modules are numbered from 0.
#[derive(Clone, Copy, Debug, PartialEq, Eq)]
pub enum Object {
    /// No bytes; its presence marks an image set as complete.
    Mark,
    /// The NVDIMM Firmware Interface Table (ACPI 6.5, section 5.2.25).
    Nfit,
    /// The label area of a module (UEFI 2.10, section 13.19).
    Labels(u32),
    /// The contents of a module, from its device address 0.
    Contents(u32),
    /// The bad ranges of a module.
    BadRanges(u32),
}

impl Object {
    ghost use Rattle.nvd_media.specs.Images.{is_object};

    /// Returns whether two names name the same object.
    pub fn is(self, other: Object) -> bool
        ensures { result ≡ is_object self other }
    {
        match (self, other) {
            (Object::Mark, Object::Mark) | (Object::Nfit, Object::Nfit) => true,
            (Object::Labels(m), Object::Labels(n)) => m == n,
            (Object::Contents(m), Object::Contents(n)) => m == n,
            (Object::BadRanges(m), Object::BadRanges(n)) => m == n,
            _ => false,
        }
    }
}
