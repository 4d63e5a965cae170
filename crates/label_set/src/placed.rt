use label_codec::{Label, Name};

/// A valid label and its place.
#[derive(Clone, Copy, Debug)]
pub struct Placed {
    /// The number of its module.
    pub module: u32,
    /// The number of its slot on the module.
    pub slot: u32,
    /// The label.
    pub label: Label,
}

/// The status of the labels of one UUID.
#[derive(Clone, Copy, Debug)]
pub enum SetStatus {
    /// A namespace with a label on each module of its set.
    Complete {
        /// The namespace's name.
        name: Name,
        /// A label has the flag UPDATING: a change of the namespace isn't finished.
        pending: bool,
    },
    /// A namespace whose creation or deletion isn't finished: labels are missing, and all existing
    /// ones have the flag UPDATING.
    Unfinished,
    /// A label has the flag LOCAL: a namespace of one module, which isn't supported.
    Local,
    /// No namespace.
    Incomplete {
        /// The first rule that the labels violate.
        why: Why,
    },
}

/// Why labels make up no namespace. Modules are named by their numbers, the least of several.
#[derive(Clone, Copy, Debug, PartialEq, Eq)]
pub enum Why {
    /// The module has two of the labels.
    Twice { module: u32 },
    /// The module isn't in the set, or its label's extent isn't inside its mapping.
    Outside { module: u32 },
    /// The cookie in the module's label, `found`, isn't the set's.
    Cookie { module: u32, found: u64 },
    /// The position in the module's label, `found`, isn't the module's.
    Position { module: u32, found: u16 },
    /// Two labels differ in a field; for Count, a label's NLabel isn't the set's number of modules.
    Differs { field: Field },
    /// The Dpa of the module's label, relative to its mapping, or its RawSize isn't a multiple of
    /// the set's unit.
    Unaligned { module: u32 },
    /// This module of the set has no label.
    Missing { module: u32 },
}

/// A field in which labels differ.
#[derive(Clone, Copy, Debug, PartialEq, Eq)]
pub enum Field {
    /// NLabel.
    Count,
    /// Dpa, relative to the start of the module's mapping.
    Dpa,
    /// RawSize.
    RawSize,
    /// LbaSize.
    LbaSize,
    /// TypeGuid or AddressAbstractionGuid.
    Guids,
    /// Name.
    Names,
}
