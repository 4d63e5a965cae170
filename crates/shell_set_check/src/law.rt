//! Laws about the definitions of this crate. Each is a function that does nothing; its `ensures`
//! state the laws.
ghost use Rattle.shell_set_check.specs.Laws.{LinesAreLoaded, RepairEndsAsCheck, RepairedLoads, SetRepairIsOnce};

/// Laws: what `check --repair` of a set that loads is worth.
///
/// - `loads`: the repaired set, as it is saved, loads again.
/// - `prints`: after the lines of what was repaired, it prints what `check` prints of the saved
///   set.
/// - `once`: in the repaired set there is nothing to repair.
pub fn repair_is_checked()
    ensures loads { RepairedLoads }
    ensures prints { RepairEndsAsCheck }
    ensures once { SetRepairIsOnce }
{}

/// A law: of a set that loads, `check` prints the lines of the set that is loaded.
pub fn lines_are_loaded()
    ensures { LinesAreLoaded }
{}
