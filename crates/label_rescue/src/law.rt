//! Laws, each a function that does nothing.
ghost use Rattle.label_rescue.specs.Laws.{CompleteIsFound, LostLabelsLeaveThePlace};

/// A law: a complete namespace is found where `Registry::find` finds it, and no module is missing.
pub fn complete_is_found()
    ensures { CompleteIsFound }
{}

/// A law: if labels of a complete namespace are lost, but not the first one, the place that is found
/// is the same. No change of the namespace was under way, and no label of another UUID reserves some
/// of what a lost one reserved.
pub fn lost_labels_leave_the_place()
    ensures { LostLabelsLeaveThePlace }
{}
