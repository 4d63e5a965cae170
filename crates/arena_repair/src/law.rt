//! Laws about the definitions of this crate. Each is a function that does nothing; its `ensures`
//! states the law.
ghost use Rattle.arena_repair.specs.Chain.{RepairMendsAll};
ghost use Rattle.arena_repair.specs.Laws.{RepairKeepsCells, RepairMends, RepairStaysInside, RepairedArenasOpen};

/// A law: a check after a repair has the findings of the check before it, in their order, without
/// those that are repaired; and none is new.
pub fn repair_mends()
    ensures { RepairMends }
{}

/// A law: an arena opens after a repair if no finding of its first info block, of a lane's group or
/// of blocks stays open.
pub fn repaired_arenas_open()
    ensures { RepairedArenasOpen }
{}

/// A law: a repair changes no word behind the arena, and the arena that follows it stays the same
/// one.
pub fn repair_stays_inside()
    ensures { RepairStaysInside }
{}

/// A law: no sector has another cell after a repair, but those with BadData, which become Bad. A
/// sector whose entry names a block that doesn't exist has no cell; its entry stays.
pub fn repair_keeps_cells()
    ensures { RepairKeepsCells }
{}

/// A law: after a repair of all arenas of a namespace, a check finds in each what stayed open there,
/// and nothing else; and no sector has another cell, but those with BadData. A sector whose entry
/// names a block that doesn't exist has no cell; its entry stays.
pub fn repair_mends_all()
    ensures { RepairMendsAll }
{}
