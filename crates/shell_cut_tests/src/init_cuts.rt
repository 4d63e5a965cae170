//! Every cut of `init`, and what stands then.
use crate::world::{TWO_SLOTS, pair, ran, shown};
use nvd_media::Stored;
use shell_reports::Status;
use std::alloc::{AllocError, Global};
use std::sync::Wait;
use std::thread::Threads;

/// What stands after so many of the 132 steps: a block stands from its last step on, and if that alone is missing the
/// chooser says whether it does.
fn standing(steps: u64, stays: bool) -> &'static str {
    let (first, both) = if stays { (65, 131) } else { (66, 132) };
    if steps < first {
        "image labels 0 NoIndex\n"
    } else if steps < both {
        "index 1 seq 2 slots 2 free 2\n"
    } else {
        "index 0 seq 3 slots 2 free 2\n"
    }
}

/// The steps after which a cut isn't what is due, with a chooser that always answers so.
fn wrong_cuts<R: Threads + Wait + Sync>(
    rt: &R,
    alloc: Global,
    objects: &[Stored],
    stays: bool,
) -> Result<Vec<u64>, AllocError> {
    let mut wrong = Vec::new(alloc);
    for steps in 0..134u64 {
        let count = format!(in alloc; "{}", steps)?;
        let made = ran(rt, alloc, &["init", "0", "--cut", &count], objects, stays)?;
        let (due, said) = if steps < 132 {
            (Status::PowerCut, format!(in alloc; "cut {}\n", steps)?)
        } else {
            (Status::Ok, String::from_str(alloc, "ok\n")?)
        };
        let left = shown(rt, alloc, &["labels", "0"], &made.objects)?;
        if made.status != due
            || made.text.as_str() != said.as_str()
            || left.as_str() != standing(steps, stays)
        {
            wrong.push(steps)?;
        }
    }
    Ok(wrong)
}

#[test]
fn every_cut_of_init(rt: HostRuntime) -> Result<(), AllocError> {
    let alloc = rt.alloc();
    let blank = pair(alloc, TWO_SLOTS)?;
    for stays in [false, true] {
        let wrong = wrong_cuts(&rt, alloc, &blank, stays)?;
        assert_eq!(rt; wrong.as_slice(), [].as_slice());
    }
    Ok(())
}
