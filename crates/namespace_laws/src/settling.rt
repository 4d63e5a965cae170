ghost use Rattle.namespace_laws.specs.Cuts.{RecoveryResumes};
ghost use Rattle.namespace_laws.specs.Recovery.{RecoveryAgrees};

/// A law: the two definitions of recovery agree. All label changes of recovery together make the
/// areas whose namespaces and free slots are those of recovery on the map: unfinished entries are
/// removed and their slots freed. Of each complete entry, the labels on modules with a free slot
/// lose UPDATING; it stays pending if one is left. It holds whatever the other entries are.
pub fn recovery_is_its_changes()
    ensures { RecoveryAgrees }
{}

/// A law: recovery may be interrupted. After a crash during its label changes, following any number
/// of their steps, running recovery again makes the namespaces and free slots of an uninterrupted
/// recovery.
pub fn cut_recovery_resumes()
    ensures { RecoveryResumes }
{}
