//! Laws about what is read of a sound namespace: all of its arenas open, and none of its words is
//! bad. Each is a function that does nothing; its `ensures` states the law.
ghost use Rattle.shell_rescue.specs.Laws.{SoundListEndsAsExport, SoundListIsMarks};
ghost use Rattle.shell_rescue.specs.Laws.{SoundRescueEndsAsExport, SoundRescueIsExport};

/// A law: of a sound namespace, `rescue` prints the bytes that `export --bad-as-zeros` prints. So a
/// sector that the map marks as bad has zeros, and each other one has its own bytes, with the
/// pending moves made.
pub fn sound_rescue_is_export()
    ensures { SoundRescueIsExport }
{}

/// A law: if a namespace of a loaded set is found and sound, `rescue` and `export --bad-as-zeros`
/// have the same outcome: the same text and ending, or the same refusal of a table or labels that
/// have a fault.
pub fn sound_rescue_ends_as_export()
    ensures { SoundRescueEndsAsExport }
{}

/// A law: of a sound namespace, the list of `--lost` has the pending moves of each arena and the
/// sectors that its map marks as bad, and nothing else.
pub fn sound_list_is_marks()
    ensures { SoundListIsMarks }
{}

/// A law: a sector of a sound namespace is listed as lost exactly if `export`, without
/// `--bad-as-zeros`, is refused for a bad sector.
pub fn sound_list_ends_as_export()
    ensures { SoundListEndsAsExport }
{}
