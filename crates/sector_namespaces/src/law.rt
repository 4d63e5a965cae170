//! A law about the definitions of this crate: a function that does nothing; what it ensures is the law.
ghost use Rattle.sector_namespaces.specs.Laws.{LoadedSetsAreUsable};

/// A law: in the interleave set of each region of a table a namespace can be opened, if each mapping lies inside its
/// module's contents and the contents have at most 16 TiB together. Every set that was loaded has this.
pub fn loaded_sets_are_usable()
    ensures { LoadedSetsAreUsable }
{}
