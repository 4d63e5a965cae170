//! Laws about what the commands on namespaces come to. Each is a function that does nothing; what it ensures is the law.
ghost use Rattle.shell_changes.specs.Maps.{AcceptedIsApart, ChangesKeepApart, CrashIsInEither, CrashLeavesOthers, CrashRecovers, DoneIsTheCommand, ReportsShowTheMap};
ghost use Rattle.shell_changes.specs.Remains.{LeavesBy};

use nvd_media::Chooser;

/// A law: the namespaces that `list`, `info` and `read` show are those of the map that the other laws speak of (`map_of`).
pub fn reports_show_the_map()
    ensures { ReportsShowTheMap }
{}

/// A law: if the images are accepted, no two of their namespaces have extents that meet.
pub fn accepted_is_apart()
    ensures { AcceptedIsApart }
{}

/// A law: recovery of accepted images keeps the namespaces apart, and so does a `create` of either mode, a `delete` or a
/// `rename` that isn't refused: carried out to their end, or cut after any number of their label steps.
pub fn changes_keep_apart()
    ensures { ChangesKeepApart }
{}

/// A law: after a `create` of either mode, a `delete` or a `rename` with status 0 the namespaces of the saved set are the
/// command applied to those that recovery makes of the set that was loaded (`done`, `after_recovery`). All else is as it was
/// loaded, but for the contents in which a `create --mode sector` formats its arena.
pub fn done_is_the_command<C: Chooser>(choose: &C)
    ensures { DoneIsTheCommand (LeavesBy C.begins C.picks choose.now) }
{}

/// A law: with status 8 the namespaces of the saved set are those after so many steps of recovery's label changes; or,
/// if power lasted for recovery but not for the format of an arena, those that recovery makes; or, if it lasted for both,
/// those after so many steps of the command's label changes, on what recovery had made. The states of each namespace in
/// between are those of the laws of `namespace_laws` (`create_is_cut`, `delete_is_cut`, `rename_is_cut`,
/// `cut_recovery_resumes`).
pub fn crash_is_in_either<C: Chooser>(choose: &C)
    ensures { CrashIsInEither (LeavesBy C.begins C.picks choose.now) }
{}

/// A law: with status 8, if power lasted for recovery, every other namespace is as recovery made it, and no two have extents
/// that meet. The command's own is one of the states of its table in `namespace_laws`; in a region of one module it is as before
/// or as after the command. One that is still pending after recovery, since a module has no free slot, isn't renamed; it is
/// deleted only if it has one label, and then a crash leaves it as it was, or gone.
pub fn crash_leaves_others<C: Chooser>(choose: &C)
    ensures { CrashLeavesOthers (LeavesBy C.begins C.picks choose.now) }
{}

/// A law: with status 8 the saved set recovers to the map that recovery makes of the set that was loaded, or to the
/// recovery of the command applied to it.
pub fn crash_recovers<C: Chooser>(choose: &C)
    ensures { CrashRecovers (LeavesBy C.begins C.picks choose.now) }
{}
