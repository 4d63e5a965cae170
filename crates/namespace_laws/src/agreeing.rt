ghost use Rattle.namespace_laws.specs.Apart.{CreateKeepsApart, CreateLeavesOthers, DeleteKeepsApart, DeleteLeavesOthers, RenameKeepsApart, RenameLeavesOthers};
ghost use Rattle.namespace_laws.specs.Whole.{CreateAgrees, DeleteAgrees, RenameAgrees};

/// A law: the two definitions of a command agree. If the command isn't refused, all its label
/// changes together make the areas whose namespaces and free slots are those of the command's step
/// on the map.
pub fn commands_are_their_changes()
    ensures create { CreateAgrees }
    ensures delete { DeleteAgrees }
    ensures rename { RenameAgrees }
{}

/// A law: after a crash during a create, delete or rename that isn't refused, every other entry of
/// the map is as before.
pub fn commands_leave_others()
    ensures create { CreateLeavesOthers }
    ensures delete { DeleteLeavesOthers }
    ensures rename { RenameLeavesOthers }
{}

/// A law: entries stay apart. If no extents of two entries overlap, the same holds after a crash
/// during a create, delete or rename that isn't refused.
pub fn commands_keep_entries_apart()
    ensures create { CreateKeepsApart }
    ensures delete { DeleteKeepsApart }
    ensures rename { RenameKeepsApart }
{}
