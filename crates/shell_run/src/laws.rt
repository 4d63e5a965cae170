//! Laws about the definitions of a run. Each is a function that does nothing; what it ensures is the law.
ghost use Rattle.shell_changes.specs.Remains.{LeavesBy};
ghost use Rattle.shell_run.specs.Laws.{InitLeavesWhole, StatusIsDue};

use nvd_media::Chooser;

/// A law: if the images are told, and the script of a command that reads one, the exit status is the one that the table of
/// statuses gives (`ending_due`), unless something outside failed or memory ran out. So each of 0, 2, 3, 4 and 8 comes only if its condition holds, and if
/// it holds no other of them comes.
///
/// The first of these that holds decides. 2: the words are no command line, or the command's script isn't taken. 3: the image set isn't loaded, or the command
/// refuses what it asks of it. 8: power doesn't last for the command's steps. 4: the command is refused by its own rules.
/// 0: none of these. The causes of 5 and 6 are clauses of `run` itself.
#[tactic(auto, using(crate::proofs::Causes::status_due))]
pub fn status_is_due<C: Chooser>(choose: &C)
    ensures { StatusIsDue (LeavesBy C.begins C.picks choose.now) }
{}

/// A law: a set that `init` saves, cut or not, is the one that was loaded but for the label area that it
/// names; and that area has no index block until the steps of the first block are made, and is an empty one
/// from then on. Each of both blocks can be read once its steps are made, and not before; if one step alone is missing
/// the chooser says which.
#[tactic(auto, using(crate::proofs::InitLeaves::init_leaves))]
pub fn init_leaves_whole<C: Chooser>(choose: &C)
    ensures { InitLeavesWhole C.begins C.picks choose.now }
{}
