//! Laws about the definitions of this crate. Each is a function that does nothing; its `ensures`
//! states the law.
ghost use Rattle.arena_rescue.specs.Laws.{DamagedLogLosesNothing, OneEntryLosesTwo, OneEntryRescuesNoOther, SoundMapsLoseNothing};

/// A law: of an arena whose blocks are each named once, and none of whose words is bad, nothing is
/// lost but the sectors that the map marks as bad. Each other one is read with its own entry.
pub fn sound_maps_lose_nothing()
    ensures { SoundMapsLoseNothing }
{}

/// A law: if each block was named once, and then one entry is damaged, each other sector that
/// isn't lost is read with the entry of before. The damaged entry's sector, if it isn't lost, names
/// the block of before, or that of a sector whose map word is bad.
pub fn one_entry_rescues_no_other()
    ensures { OneEntryRescuesNoOther }
{}

/// A law: if each block was named once, and then one entry is damaged, no other sector is lost than
/// before, but the one whose block the damaged entry names.
pub fn one_entry_loses_two()
    ensures { OneEntryLosesTwo }
{}

/// A law: if each block is named once and no move is pending, some lanes may be left out, and
/// nothing more is lost.
pub fn damaged_log_loses_nothing()
    ensures { DamagedLogLosesNothing }
{}
