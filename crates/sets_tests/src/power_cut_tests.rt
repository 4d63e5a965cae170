ghost use Rattle.std.specs.Prelude.{IfOk};
ghost use Rattle.std.specs.List.{All};
ghost use Rattle.power_cut.specs.Namespace.{IsRow};

use crate::tables::two_modules;
use cut_words::{CutWords, Fuse, PowerCut, WordSpace, store_from};
use interleave::InterleaveSet;
use nvd_media::ListChooser;
use nvd_words::Items;
use power_cut::{SetWords, leave_all, reach_ends};
use std::alloc::{AllocError, Global};
use std::test::Fail;

/// Two words from a number on, with 10 more stored into each.
fn row(alloc: Global, first: u64) -> Result<CutWords, AllocError> {
    let next = first.saturating_add(10);
    let mut words = CutWords::new(alloc, vec![in alloc; first, first]?)?;
    match store_from(&mut words, &mut Fuse::none(), 0, &[next, next]) {
        Ok(()) => Ok(words),
        Err(PowerCut) => Err(AllocError),
    }
}

/// The chooser is asked for the label areas before the contents.
#[test]
fn all_parts_lose_power(rt: HostRuntime) -> Result<(), AllocError> {
    let alloc = rt.alloc();
    let labels = Items::from_vec(vec![in alloc; None, Some(row(alloc, 20)?)]?);
    let contents = Items::from_vec(vec![in alloc; row(alloc, 40)?, row(alloc, 60)?]?);
    let answers = [true, false, false, false, false, true];
    let mut choose = ListChooser::new(Vec::from_array(alloc, answers)?);
    let left = leave_all(alloc, labels, contents, Vec::new(alloc), &mut choose)?;
    let [None, Some(area)] = left.labels.as_slice() else {
        return Err(AllocError);
    };
    let [one, two] = left.contents.as_slice() else {
        return Err(AllocError);
    };
    assert_eq!(rt; area.as_slice(), [30, 20].as_slice());
    assert_eq!(rt;
        (one.as_slice(), two.as_slice()),
        ([40, 40].as_slice(), [60, 70].as_slice())
    );
    Ok(())
}

/// The words of a module from a number on.
fn numbered(alloc: Global, first: u64, count: u64) -> Result<CutWords, AllocError>
    ensures { IfOk result IsRow }
{
    let mut words = Vec::new(alloc);
    for i in 0..count {
        words.push(first.saturating_add(i))?;
    }
    CutWords::new(alloc, words)
}

/// Stores a value into a word of a namespace and flushes it.
fn write(words: &mut SetWords<'_>, i: u64, v: u64) -> Result<(), PowerCut> {
    if i < words.count() && !words.pending(i) {
        words.store(&mut Fuse::none(), i, v)?;
    }
    if i < words.count() {
        words.keep(&mut Fuse::none(), i)?;
    }
    Ok(())
}

/// The second half of each module as a namespace; 1 and 2 are written into its first word on each.
fn written(set: &InterleaveSet, modules: Vec<CutWords>) -> Option<Vec<CutWords>>
    requires { All IsRow modules.items }
{
    if !reach_ends(set, &modules) || set.unit() != 8192 || set.span() != 16384 {
        return None;
    }
    let mut words = SetWords::of(set, 8192, 8192, modules);
    if words.count() != 2048 || words.load(0) != 1024 || words.load(513) != 6025 {
        return None;
    }
    if write(&mut words, 0, 1).is_err() || write(&mut words, 512, 2).is_err() {
        return None;
    }
    Some(words.into_modules())
}

/// Two lines of 4,096 bytes of each of two modules, alternating.
#[test]
fn words_lie_where_the_set_puts_them(rt: HostRuntime) -> Result<(), Fail> {
    let alloc = rt.alloc();
    let set = two_modules(alloc, 16384)?;
    let rows = vec![in alloc; numbered(alloc, 0, 2048)?, numbered(alloc, 5000, 2048)?]?;
    let Some(modules) = written(&set, rows) else {
        return Err(AllocError)?;
    };
    let [one, two] = modules.as_slice() else {
        return Err(AllocError)?;
    };
    if one.count() == 2048 && two.count() == 2048 {
        assert_eq!(rt;
            (one.load(1023), one.load(1024), one.load(1025)),
            (1023, 1, 1025)
        );
        assert_eq!(rt;
            (two.load(1023), two.load(1024), two.load(1025)),
            (6023, 2, 6025)
        );
    }
    Ok(())
}
