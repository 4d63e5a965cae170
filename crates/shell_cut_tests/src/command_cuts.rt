//! Every cut of `create`, `delete` and `rename`, and what the next command makes of it.
use crate::tables::ONE_WAY;
use crate::world::{
    AfterRun, FOUR_SLOTS, TWO_SLOTS, initialised, modules, pair, ran, shown, table_of,
};
use nvd_media::Stored;
use shell_reports::Status;
use std::alloc::{AllocError, Global};
use std::sync::Wait;
use std::thread::Threads;

const FIRST: &str = "11111111-1111-4111-8111-111111111111";

const SECOND: &str = "22222222-2222-4222-8222-222222222222";

/// Makes the first namespace: a line of each module of the pair.
const CREATE: [&str; 11] = [
    "create", "--uuid", FIRST, "--name", "a", "--region", "0", "--size", "8192", "--mode", "raw",
];

/// Makes the second one, of the same size.
const BESIDE: [&str; 11] = [
    "create", "--uuid", SECOND, "--name", "v", "--region", "0", "--size", "8192", "--mode", "raw",
];

/// What is listed of the first namespace, from its whole to none of it.
const COMPLETE_A: &str =
    "ns 11111111-1111-4111-8111-111111111111 \"a\" region 0 mode raw lba 512 size 8192 complete\nextent 0 0 4096\nextent 1 0 4096\n";

const PENDING_A: &str =
    "ns 11111111-1111-4111-8111-111111111111 \"a\" region 0 mode raw lba 512 size 8192 complete pending\nextent 0 0 4096\nextent 1 0 4096\n";

const COMPLETE_B: &str =
    "ns 11111111-1111-4111-8111-111111111111 \"b\" region 0 mode raw lba 512 size 8192 complete\nextent 0 0 4096\nextent 1 0 4096\n";

const PENDING_B: &str =
    "ns 11111111-1111-4111-8111-111111111111 \"b\" region 0 mode raw lba 512 size 8192 complete pending\nextent 0 0 4096\nextent 1 0 4096\n";

const ON_FIRST: &str =
    "ns 11111111-1111-4111-8111-111111111111 \"a\" region 0 mode raw lba 512 size 4096 unfinished\nextent 0 0 4096\n";

const ON_SECOND: &str =
    "ns 11111111-1111-4111-8111-111111111111 \"a\" region 0 mode raw lba 512 size 4096 unfinished\nextent 1 0 4096\n";

/// The second namespace, where the first is, and where it isn't.
const BEHIND: &str =
    "ns 22222222-2222-4222-8222-222222222222 \"v\" region 0 mode raw lba 512 size 8192 complete\nextent 0 4096 4096\nextent 1 4096 4096\n";

const IN_FRONT: &str =
    "ns 22222222-2222-4222-8222-222222222222 \"v\" region 0 mode raw lba 512 size 8192 complete\nextent 0 0 4096\nextent 1 0 4096\n";

/// A command, by when each of its changes is made to its end, in steps; and by how many of them were made, what is
/// listed then, and what is listed of both namespaces when the next command has recovered that and made the second.
#[derive(Clone, Copy)]
struct Cuts<'a> {
    words: &'a [&'a str],
    ends: [u64; 4],
    left: [&'a str; 5],
    recovered: [&'a str; 5],
    second: [&'a str; 5],
}

const CREATED: Cuts<'static> = Cuts {
    words: &CREATE,
    ends: [130, 260, 390, 520],
    left: ["", ON_FIRST, PENDING_A, PENDING_A, COMPLETE_A],
    recovered: ["", "", COMPLETE_A, COMPLETE_A, COMPLETE_A],
    second: [IN_FRONT, IN_FRONT, BEHIND, BEHIND, BEHIND],
};

const RENAMED: Cuts<'static> = Cuts {
    words: &["rename", FIRST, "b"],
    ends: [130, 260, 390, 520],
    left: [COMPLETE_A, PENDING_A, PENDING_B, PENDING_B, COMPLETE_B],
    recovered: [COMPLETE_A, COMPLETE_A, COMPLETE_B, COMPLETE_B, COMPLETE_B],
    second: [BEHIND; 5],
};

const DELETED: Cuts<'static> = Cuts {
    words: &["delete", FIRST],
    ends: [130, 260, 326, 392],
    left: [COMPLETE_A, PENDING_A, PENDING_A, ON_SECOND, ""],
    recovered: [COMPLETE_A, COMPLETE_A, COMPLETE_A, "", ""],
    second: [BEHIND, BEHIND, BEHIND, IN_FRONT, IN_FRONT],
};

/// How many changes stand after so many steps: those that were made to their end, and the one of which the last step
/// alone is missing if the chooser says so.
fn standing(ends: &[u64], steps: u64, stays: bool) -> usize {
    let last = u64::from(stays);
    ends.iter()
        .filter(|end| **end <= steps.saturating_add(last))
        .count()
}

/// Whether a run ended as power for so many of a command's steps asks.
fn has_ended(
    alloc: Global,
    cuts: &Cuts<'_>,
    steps: u64,
    run: &AfterRun,
) -> Result<bool, AllocError> {
    if cuts.ends.iter().all(|end| *end <= steps) {
        return Ok(run.status == Status::Ok && run.text.as_str() == "ok\n");
    }
    let said = format!(in alloc; "cut {}\n", steps)?;
    Ok(run.status == Status::PowerCut && run.text.as_str() == said.as_str())
}

/// A command with power for so many steps: whether it ends so, lists so, and is recovered so by the next command.
fn is_due<R: Threads + Wait + Sync>(
    rt: &R,
    alloc: Global,
    cuts: &Cuts<'_>,
    objects: &[Stored],
    steps: u64,
    stays: bool,
) -> Result<bool, AllocError> {
    let count = format!(in alloc; "{}", steps)?;
    let mut words = Vec::from_slice(alloc, cuts.words)?;
    words.push("--cut")?;
    words.push(count.as_str())?;
    let cut = ran(rt, alloc, &words, objects, stays)?;
    let made = standing(&cuts.ends, steps, stays);
    let left = cuts.left.get(made).copied().unwrap_or("none");
    let again = ran(rt, alloc, &BESIDE, &cut.objects, false)?;
    let recovered = cuts.recovered.get(made).copied().unwrap_or("none");
    let second = cuts.second.get(made).copied().unwrap_or("none");
    let both = format!(in alloc; "{}{}", recovered, second)?;
    Ok(
        has_ended(alloc, cuts, steps, &cut)?
            && shown(rt, alloc, &["list"], &cut.objects)?.as_str() == left
            && again.status == Status::Ok
            && shown(rt, alloc, &["list"], &again.objects)?.as_str() == both.as_str(),
    )
}

/// The steps after which a cut isn't what is due, for a chooser that lets all stores go and for one that lets all stay.
fn wrong_cuts<R: Threads + Wait + Sync>(
    rt: &R,
    alloc: Global,
    cuts: &Cuts<'_>,
    objects: &[Stored],
) -> Result<Vec<u64>, AllocError> {
    let mut wrong = Vec::new(alloc);
    for stays in [false, true] {
        for steps in 0..522u64 {
            if !is_due(rt, alloc, cuts, objects, steps, stays)? {
                wrong.push(steps)?;
            }
        }
    }
    Ok(wrong)
}

#[test]
fn every_cut_of_create_rename_and_delete(rt: HostRuntime) -> Result<(), AllocError> {
    let alloc = rt.alloc();
    let fresh = initialised(&rt, alloc, pair(alloc, FOUR_SLOTS)?)?;
    let first = ran(&rt, alloc, &CREATE, &fresh, false)?.objects;
    for (cuts, objects) in [(CREATED, &fresh), (RENAMED, &first), (DELETED, &first)] {
        let wrong = wrong_cuts(&rt, alloc, &cuts, objects)?;
        assert_eq!(rt; wrong.as_slice(), [].as_slice());
    }
    Ok(())
}

/// A rename that was cut is taken back by the recovery of a delete, which is then cut where it begins.
#[test]
fn recovery_comes_before_the_command(rt: HostRuntime) -> Result<(), AllocError> {
    let alloc = rt.alloc();
    let fresh = initialised(&rt, alloc, pair(alloc, TWO_SLOTS)?)?;
    let whole = ran(&rt, alloc, &CREATE, &fresh, false)?.objects;
    let rename = ["rename", FIRST, "b", "--cut", "200"];
    let renaming = ran(&rt, alloc, &rename, &whole, false)?.objects;
    assert_eq!(rt;
        shown(&rt, alloc, &["list"], &renaming)?.as_str(),
        PENDING_A
    );
    // what a refused command recovered isn't saved, and its steps count
    for (uuid, cut, stays, text, left) in [
        (FIRST, "130", false, "cut 130\n", COMPLETE_A),
        (SECOND, "129", true, "cut 129\n", COMPLETE_A),
        (
            SECOND,
            "130",
            false,
            "refused NoSuch\n",
            "image mark Missing\n",
        ),
    ] {
        let after = ran(
            &rt,
            alloc,
            &["delete", uuid, "--cut", cut],
            &renaming,
            stays,
        )?;
        assert_eq!(rt; after.text.as_str(), text);
        assert_eq!(rt;
            shown(&rt, alloc, &["list"], &after.objects)?.as_str(),
            left
        );
    }
    Ok(())
}

/// The label comes with the last of 39,042 steps. If that alone is missing, the chooser says whether it stands.
#[test]
fn a_label_comes_when_the_arena_is_whole(rt: HostRuntime) -> Result<(), AllocError> {
    let alloc = rt.alloc();
    let nfit = table_of(alloc, ONE_WAY, &[])?;
    let objects = initialised(&rt, alloc, modules(alloc, nfit, 1, 16 << 20, TWO_SLOTS)?)?;
    let whole =
        "ns 11111111-1111-4111-8111-111111111111 \"a\" region 0 mode sector lba 512 size 16777216 complete\nextent 0 0 16777216\n";
    for (cut, stays, text, left) in [
        ("38911", true, "cut 38911\n", ""),
        ("39040", true, "cut 39040\n", ""),
        ("39041", false, "cut 39041\n", ""),
        ("39041", true, "cut 39041\n", whole),
        ("39042", false, "ok\n", whole),
    ] {
        let words = [
            "create", "--uuid", FIRST, "--name", "a", "--region", "0", "--size", "16777216",
            "--mode", "sector", "--cut", cut,
        ];
        let got = ran(&rt, alloc, &words, &objects, stays)?;
        assert_eq!(rt; got.text.as_str(), text);
        assert_eq!(rt; shown(&rt, alloc, &["list"], &got.objects)?.as_str(), left);
    }
    Ok(())
}
