ghost use Rattle.namespace_map.specs.Laws.{EntriesAreFound, EntriesRise, RisingListsAreMaps};

/// A law: the entries of labels are a map. Looking up a UUID finds the entry of its labels, the
/// entries ascend by UUID, and an ascending list is determined by its lookups. It holds for any
/// code that makes the list.
pub fn entries_are_a_map()
    ensures found { EntriesAreFound }
    ensures rising { EntriesRise }
    ensures one { RisingListsAreMaps }
{}
