//! Laws about the definitions of this crate. Each is a function that does nothing; its `ensures`
//! states the law.
ghost use Rattle.label_repair.specs.Laws.{RepairIsOnce, RepairIsRead, RepairKeepsLabels, RepairStaysInside};

/// A law: after a repair, the side that was written is read as the block that the repair says.
pub fn repair_is_read()
    ensures { RepairIsRead }
{}

/// A law: after a repair, an area has the same current block and the same labels as before.
pub fn repair_keeps_labels()
    ensures { RepairKeepsLabels }
{}

/// A law: after a repair there is nothing to repair.
pub fn repair_is_once()
    ensures { RepairIsOnce }
{}

/// A law: a repair changes no word outside the index block that it writes, and not the number of
/// words.
pub fn repair_stays_inside()
    ensures { RepairStaysInside }
{}
