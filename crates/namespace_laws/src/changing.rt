ghost use Rattle.namespace_laws.specs.Laws.{AnyDeleteIsCut, AnyRenameIsCut, DeleteAloneIsCut, DeleteIsCut, RenameAloneIsCut, RenameIsCut};

/// A law: the entry after a crash during a delete that isn't refused, if it was complete and not
/// pending.
///
/// After any number of steps the entry is unchanged; or it is pending; or it is unfinished, with
/// some of its parts; or it is gone. With one part, it is unchanged or gone. One that was pending is
/// unchanged, or fewer of its labels have UPDATING, or it is as a settled one after a crash.
pub fn delete_is_cut()
    ensures left { DeleteIsCut }
    ensures alone { DeleteAloneIsCut }
    ensures any { AnyDeleteIsCut }
{}

/// A law: the entry after a crash during a rename that isn't refused, if it was complete and not
/// pending.
///
/// After any number of steps the entry is unchanged; or it is pending, under the old name or the
/// new one; or it has the new name. With one part it is never pending. One that was pending is
/// unchanged, or fewer of its labels have UPDATING, or it is as a settled one after a crash.
pub fn rename_is_cut()
    ensures left { RenameIsCut }
    ensures alone { RenameAloneIsCut }
    ensures any { AnyRenameIsCut }
{}
