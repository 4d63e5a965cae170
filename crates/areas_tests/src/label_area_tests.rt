ghost use Rattle.std.specs.Prelude.{IfSome};
ghost use Rattle.label_codec.specs.Writable.{IsSound};

use cut_words::{CutWords, Fuse};
use label_area::{AreaFault, AreaRefused, ChangeRefused, LabelArea, init_area, open_area};
use label_codec::{Label, NO_ABSTRACTION, PERSISTENT_MEMORY, name_of, odd_size};
use label_index::Side;
use nvd_media::ListChooser;
use std::alloc::{AllocError, Global};
use uuid::Uuid;

/// The contents of an area of 1,024 bytes: its current side, Seq, the number of free slots, and the
/// Dpa of the label in each slot. `None` if the area is stopped.
type Seen = Option<(Side, u32, u32, [Option<u64>; 2])>;

fn dpa_of(labels: &[Option<Label>], slot: usize) -> Option<u64> {
    match labels.get(slot) {
        Some(Some(label)) => Some(label.dpa),
        _ => None,
    }
}

fn shown(area: &LabelArea) -> Seen {
    if area.is_stopped() {
        return None;
    }
    let labels = [dpa_of(area.labels(), 0), dpa_of(area.labels(), 1)];
    Some((area.side(), area.seq(), area.free_slots(), labels))
}

/// Opens an area of 1,024 bytes, or initialises it with `steps` steps.
fn taken(
    alloc: Global,
    words: Vec<u64>,
    steps: Option<u64>,
) -> Result<Result<LabelArea, AreaRefused>, AllocError> {
    if words.len() != 128 {
        return Err(AllocError);
    }
    let words = CutWords::new(alloc, words)?;
    Ok(match steps {
        Some(steps) => init_area(alloc, words, &mut Fuse::after(steps)),
        None => open_area(alloc, words),
    })
}

/// Opens words and returns their contents.
fn look(alloc: Global, words: &[u64]) -> Result<Result<Seen, AreaFault>, AllocError> {
    let words = Vec::from_slice(alloc, words)?;
    Ok(match taken(alloc, words, None)? {
        Ok(area) => Ok(shown(&area)),
        Err(refused) => Err(refused.fault),
    })
}

/// Returns the words after a crash that loses all pending values.
fn left(alloc: Global, words: CutWords) -> Vec<u64> {
    words.leave(&mut ListChooser::new(Vec::new(alloc)))
}

/// Initialises an area of zeros with `steps` steps; returns its words after a crash, and the
/// refusal.
fn initialised(alloc: Global, steps: u64) -> Result<(Vec<u64>, Option<AreaFault>), AllocError> {
    Ok(match taken(alloc, vec![in alloc; 0; 128]?, Some(steps))? {
        Ok(area) => (left(alloc, area.into_words()), None),
        Err(refused) => (left(alloc, refused.words), Some(refused.fault)),
    })
}

#[test]
fn an_area_is_initialised(rt: HostRuntime) -> Result<(), AllocError> {
    let alloc = rt.alloc();
    let power = Some(AreaFault::PowerCut);
    for (steps, fault, seen) in [
        (66, power, Ok(Some((Side::One, 2, 2, [None, None])))),
        (132, None, Ok(Some((Side::Zero, 3, 2, [None, None])))),
    ] {
        let (words, found) = initialised(alloc, steps)?;
        assert_eq!(rt; (found, look(alloc, &words)?), (fault, seen));
    }
    // The block at 0: Seq 3 and its Checksum; the block at 256: Seq 2.
    let (words, _) = initialised(alloc, 132)?;
    for (at, want) in [
        (2, 0x3_0100_0000),
        (8, 0x2793_83A7_D832_3A33),
        (34, 0x2_0100_0000),
    ] {
        assert_eq!(rt; words.get(at).copied(), Some(want));
    }
    let again = taken(alloc, words, Some(132))?.err();
    let fault = again.map(|refused| refused.fault);
    assert_eq!(rt; fault, Some(AreaFault::AlreadyInitialised { seq: 3 }));
    Ok(())
}

/// Returns a label at a device address.
fn label_at(dpa: u64) -> Option<Label>
    ensures { IfSome result IsSound }
{
    let name = name_of("boot")?;
    if odd_size(dpa, 4096).is_some() {
        return None;
    }
    Some(Label {
        uuid: Uuid::from_u128(0x2d2b7f5c_6d5b_4c58_9f0a_6a1a0f0c1e01),
        name,
        flags: 0,
        count: 1,
        position: 0,
        cookie: 0xa3de_0000_1235,
        lba: 512,
        dpa,
        raw: 4096,
        slot: 7,
        align: 0,
        kind: Uuid::from_bytes(PERSISTENT_MEMORY),
        abstraction: Uuid::from_bytes(NO_ABSTRACTION),
        spa_cookie: 0,
    })
}

/// Makes a change: puts the label at a device address, frees slot 0, or both. It returns `None` if
/// the area can't be changed so.
fn made(
    area: &mut LabelArea,
    steps: u64,
    out: bool,
    put: u64,
) -> Option<Result<Option<u32>, ChangeRefused>> {
    let label = label_at(put)?;
    let mut fuse = Fuse::after(steps);
    if area.is_stopped() {
        return None;
    }
    if !out {
        return Some(area.replace(&mut fuse, None, Some(&label)));
    }
    if !area.is_used(0) {
        return None;
    }
    Some(match put {
        0 => area.replace(&mut fuse, Some(0), None),
        _ => area.replace(&mut fuse, Some(0), Some(&label)),
    })
}

/// Opens an area, makes a change, and cuts power; returns the result, and the words after the
/// crash.
fn changed(
    alloc: Global,
    words: Vec<u64>,
    steps: u64,
    out: bool,
    put: u64,
) -> Result<(Option<Result<Option<u32>, ChangeRefused>>, Vec<u64>), AllocError> {
    match taken(alloc, words, None)? {
        Ok(mut area) => {
            let answer = made(&mut area, steps, out, put);
            Ok((answer, left(alloc, area.into_words())))
        }
        Err(_) => Err(AllocError),
    }
}

/// Labels are put and removed, one change after another; after each the area is opened again.
#[test]
fn labels_are_changed(rt: HostRuntime) -> Result<(), AllocError> {
    let alloc = rt.alloc();
    let cut = Err(ChangeRefused::PowerCut);
    let (mut words, _) = initialised(alloc, 132)?;
    for (out, put, steps, answer, side, seq, free, labels) in [
        (
            false,
            4096,
            130,
            Ok(Some(0)),
            Side::One,
            1,
            1,
            [Some(4096), None],
        ),
        (false, 8192, 129, cut, Side::One, 1, 1, [Some(4096), None]),
        (
            true,
            8192,
            130,
            Ok(Some(1)),
            Side::Zero,
            2,
            1,
            [None, Some(8192)],
        ),
        (
            false,
            4096,
            130,
            Ok(Some(0)),
            Side::One,
            3,
            0,
            [Some(4096), Some(8192)],
        ),
        (true, 0, 66, Ok(None), Side::Zero, 1, 1, [None, Some(8192)]),
    ] {
        let (got, rest) = changed(alloc, words, steps, out, put)?;
        words = rest;
        assert_eq!(rt; got, Some(answer));
        assert_eq!(rt; look(alloc, &words)?, Ok(Some((side, seq, free, labels))));
    }
    Ok(())
}
