ghost use Rattle.nfit_reader.specs.Sharing.{RegionsShareNoBytes};

/// A law: in a table that is read, no byte is in two nonempty mappings of one module into two
/// regions. A table with such mappings is refused with `Alias` (ACPI 6.5, section 5.2.25.2).
pub fn regions_share_no_bytes()
    ensures { RegionsShareNoBytes }
{}
