//! Laws of `serve` and `load`.
ghost use Rattle.shell_changes.specs.Remains.{LeavesBy};
ghost use Rattle.shell_serve.specs.Laws.{EmptyServes, LoadEndsDue, ServeEndsDue};

use nvd_media::Chooser;

/// A law: without sessions nothing is printed, and a set is saved. So what `serve` may come to isn't empty.
pub fn empty_serves<C: Chooser>(choose: &C)
    ensures { EmptyServes C.begins C.picks choose.now }
{}

/// A law: `serve` ends as it is due, by the images and the script alone; whatever was cut, and whatever the chooser picks.
pub fn serve_ends_due<C: Chooser>(choose: &C, seed: u64)
    ensures { ServeEndsDue (LeavesBy C.begins C.picks choose.now seed) }
{}

/// A law: `load` ends as it is due, by the images and the words alone.
pub fn load_ends_due<C: Chooser>(choose: &C, seed: u64)
    ensures { LoadEndsDue (LeavesBy C.begins C.picks choose.now seed) }
{}
