//! Laws about the definitions of this crate. Each is a function that does nothing; its `ensures`
//! states the law.
ghost use Rattle.arena_check.specs.Laws.{CleanArenasOpen, NeverAlone, NoFindingsNameEachOnce, OneEntry, OpenArenasAreClean};

/// A law: if the blocks have no finding, each block is named once.
#[tactic(auto, using(crate::proofs::Clean::none_found))]
pub fn no_findings_name_each_once()
    ensures { NoFindingsNameEachOnce }
{}

/// A law: an arena opens if its report has a size and no finding of its first info block, of a
/// lane's group or of blocks.
pub fn clean_arenas_open()
    ensures { CleanArenasOpen }
{}

/// A law: the report on an arena that opens has the arena's size and no such finding.
#[tactic(auto, using(crate::proofs::Opens::open_clean))]
pub fn open_arenas_are_clean()
    ensures { OpenArenasAreClean }
{}

/// A law: a block is missing only if another is out of range or named twice.
#[tactic(auto, using(crate::proofs::Clean::never_alone))]
pub fn missing_is_never_alone()
    ensures { NeverAlone }
{}

/// A law: if one name is changed and its block is still named once, it is the block of before.
pub fn one_entry_keeps_its_block()
    ensures { OneEntry }
{}
