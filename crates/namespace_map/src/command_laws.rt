//! Laws about the definitions of this crate. Each is a function that does nothing; its `ensures`
//! states the law.
ghost use Rattle.namespace_map.specs.CommandLaws.{AllStepsMakeAll, CutLeavesOthers};

/// A law: after a crash during changes of one UUID's labels, every other entry of the map is as
/// before. The changes may be any of that UUID, on any areas.
pub fn cut_leaves_others()
    ensures { CutLeavesOthers }
{}

/// A law: with as many steps as all changes of a list take, each of them is made, whatever the
/// chooser says.
pub fn all_steps_make_all_changes()
    ensures { AllStepsMakeAll }
{}
