use cut_words::{CutWords, Fuse, PowerCut, WordSpace, write_from, write_word};
use nvd_media::{Chooser, ListChooser, SeedChooser};
use std::alloc::{AllocError, Global};

/// Writes 7 into the first word and stores 8 into the second.
fn change(words: &mut CutWords, fuse: &mut Fuse) -> Result<(), PowerCut> {
    if words.count() > 1 && !words.pending(0) {
        write_word(words, fuse, 0, 7)?;
    }
    if words.count() > 1 && !words.pending(1) {
        words.store(fuse, 1, 8)?;
    }
    Ok(())
}

/// The words 5, 6 and 9, changed, or with 7 and 8 written as a run into the last two; and whether
/// the fuse lasted.
fn changed(alloc: Global, run: bool, fuse: &mut Fuse) -> Result<(CutWords, bool), AllocError> {
    let mut words = CutWords::new(alloc, vec![in alloc; 5, 6, 9]?)?;
    let made = if run {
        write_from(&mut words, fuse, 1, &[7, 8])
    } else {
        change(&mut words, fuse)
    };
    Ok((words, made.is_ok()))
}

#[test]
fn what_a_cut_leaves(rt: HostRuntime) -> Result<(), AllocError> {
    let alloc = rt.alloc();
    for (run, steps, answers, made, want) in [
        (false, 1, [false, true], false, [5, 6, 9]),
        (false, 1, [true, true], false, [7, 6, 9]),
        (false, 3, [false, true], true, [7, 6, 9]),
        (false, 3, [true, false], true, [7, 8, 9]),
        (true, 2, [false, true], false, [5, 6, 8]),
        (true, 3, [false, true], false, [5, 7, 9]),
        (true, 4, [false, false], true, [5, 7, 8]),
    ] {
        let mut fuse = Fuse::after(steps);
        let (words, done) = changed(alloc, run, &mut fuse)?;
        assert_eq!(rt; (done, fuse.left()), (made, Some(0)));
        let left = words.leave(&mut ListChooser::new(Vec::from_array(alloc, answers)?));
        assert_eq!(rt; left.as_slice(), want.as_slice());
    }
    Ok(())
}

/// The first answers for two seeds, computed from the generator's rule by another program.
#[test]
fn a_seed_decides(rt: HostRuntime) {
    for (seed, want) in [
        (0, [false, false, true, false, false, true, false, false]),
        (7, [false, true, true, false, false, false, false, false]),
    ] {
        let mut choose = SeedChooser::new(1);
        choose.begin(seed);
        for answer in want {
            assert_eq!(rt; choose.pick(0), answer);
        }
    }
}
