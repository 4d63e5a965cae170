ghost use Rattle.namespace_laws.specs.Regions.{TablesGiveRegions};

/// A law: if bytes are read as a firmware table, and each of its regions has a mapping and is an
/// interleave set, no two of these sets share bytes of a module. It holds for any code that reads
/// them.
pub fn tables_give_regions()
    ensures { TablesGiveRegions }
{}
