ghost use Rattle.std.specs.Prelude.{◌≡◌, IfOk, length};

use crate::tables::{Map, table};
use cut_words::{CutWords, Fuse, WordSpace};
use image_set::{CopyFault, LoadFault, SaveFault, load, load_outline, save};
use nvd_media::{ListChooser, MemImages, Object, Stored};
use nvd_words::Items;
use power_cut::Images;
use std::alloc::{AllocError, Global};

/// Mappings of 8,192 bytes of module 0 from 0 on, and of 4,096 of module 1 from 4,096 on. The
/// second handle is less than the first, so a module's number isn't its rank among the sorted
/// handles.
pub fn firmware(alloc: Global) -> Result<Vec<u8>, AllocError> {
    let map = |handle, range, start, size| Map {
        handle,
        range,
        start,
        size,
        ways: 1,
        offset: 0,
        line: 0,
        lines: [0, 0],
    };
    table(
        alloc,
        &[8192, 4096],
        &[map(9, 1, 0, 8192), map(4, 2, 4096, 4096)],
    )
}

/// Returns bytes that differ from place to place, and from object to object.
fn pattern(alloc: Global, count: usize, seed: u8) -> Result<Vec<u8>, AllocError> {
    let mut bytes = Vec::with_capacity(alloc, count)?;
    let mut byte = seed;
    for _ in 0..count {
        bytes.push(byte)?;
        byte = byte.wrapping_mul(5).wrapping_add(seed);
    }
    Ok(bytes)
}

/// Returns the objects of a valid image set of two modules.
fn sound_set(alloc: Global) -> Result<Vec<Stored>, AllocError> {
    let mut objects = Vec::new(alloc);
    for (object, bytes) in [
        (Object::Mark, Vec::new(alloc)),
        (Object::Nfit, firmware(alloc)?),
        (Object::Labels(0), pattern(alloc, 1024, 1)?),
        (Object::Contents(0), pattern(alloc, 8192, 3)?),
        (Object::BadRanges(0), pattern(alloc, 32, 7)?),
        (Object::Contents(1), pattern(alloc, 12288, 9)?),
    ] {
        objects.push(Stored { object, bytes })?;
    }
    Ok(objects)
}

/// Each of the calls on the source fails in turn: eight lengths, and five objects that are read in one
/// piece each.
#[test]
fn loading_fails_with_each_call(rt: HostRuntime) -> Result<(), AllocError> {
    let alloc = rt.alloc();
    for call in 0..13 {
        let mut images = MemImages::new(alloc, sound_set(alloc)?, vec![in alloc; call; 1]?);
        let fault = load(alloc, &mut images).err();
        assert_eq!(rt; fault, Some(LoadFault::ReadFault), "call {call}");
    }
    Ok(())
}

#[test]
fn a_set_is_loaded(rt: HostRuntime) -> Result<(), AllocError> {
    let alloc = rt.alloc();
    let mut images = MemImages::new(alloc, sound_set(alloc)?, Vec::new(alloc));
    match load_outline(alloc, &mut images) {
        Err(_) => assert!(rt; false),
        Ok(outline) => {
            assert!(rt; outline.nfit.modules.as_slice() == [9, 4].as_slice());
            let area = outline.area(alloc, 0)?.unwrap_or(Vec::new(alloc));
            assert!(rt; area.as_slice() == pattern(alloc, 1024, 1)?.as_slice());
            assert!(rt; outline.area(alloc, 1)?.is_none());
        }
    }
    Ok(())
}

/// Stores 7 into the words 0 and 2, if they exist.
fn change(area: &mut CutWords) {
    for word in [0, 2] {
        if word < area.count() && !area.pending(word) {
            let _made = area.store(&mut Fuse::none(), word, 7);
        }
    }
}

/// The result of copying a set after a change of a module's label area, and the sink: `None` if the
/// module has no label area, or the set isn't loaded. The source's call and the sink's call with
/// these numbers fail.
fn copied(
    alloc: Global,
    module: u32,
    answers: [bool; 2],
    failing: (u64, u64),
) -> Result<Option<(Result<(), CopyFault>, MemImages)>, AllocError> {
    let (read, written) = failing;
    let mut images = MemImages::new(alloc, sound_set(alloc)?, vec![in alloc; read; 1]?);
    let Ok(outline) = load_outline(alloc, &mut images) else {
        return Ok(None);
    };
    let named = (module as usize) < outline.labels.len();
    let (rest, area) = outline.take_area(module);
    let Some(mut area) = area else {
        return Ok(None);
    };
    if !named {
        return Ok(None);
    }
    change(&mut area);
    let mut choose = ListChooser::new(Vec::from_array(alloc, answers)?);
    let left = rest.leave_area(alloc, module, area, &mut choose)?;
    let mut out = MemImages::new(alloc, Vec::new(alloc), vec![in alloc; written; 1]?);
    let copied = left.save(alloc, &mut images, &mut out);
    Ok(Some((copied, out)))
}

/// Of the two stored words the second survives, and all other objects are unchanged.
#[test]
fn one_area_is_changed(rt: HostRuntime) -> Result<(), AllocError> {
    let alloc = rt.alloc();
    assert!(rt;
        copied(alloc, 1, [true, true], (99, 99))?.is_none(),
        "no label area"
    );
    let Some((result, out)) = copied(alloc, 0, [false, true], (99, 99))? else {
        return Err(AllocError);
    };
    assert_eq!(rt; result, Ok(()));
    for stored in sound_set(alloc)? {
        let mut bytes = stored.bytes;
        if stored.object.is(Object::Labels(0)) && bytes.len() > 24 {
            bytes[16..24].copy_from_slice(&[7, 0, 0, 0, 0, 0, 0, 0]);
        }
        assert_eq!(rt; out.bytes(stored.object), Some(bytes.as_slice()));
    }
    assert!(rt; out.bytes(Object::Labels(1)).is_none());
    assert!(rt; out.bytes(Object::BadRanges(1)).is_none());
    Ok(())
}

/// Each of the calls while the set is copied fails in turn, and then the set isn't finished: the
/// source's calls 11 and 12, for the contents of two modules, and the sink's for five objects and
/// the mark.
#[test]
fn copying_fails_with_each_call(rt: HostRuntime) -> Result<(), AllocError> {
    let alloc = rt.alloc();
    for call in 0..13 {
        let (failing, fault) = match call {
            0..6 => ((99, call), Err(CopyFault::WriteFault)),
            11..13 => ((call, 99), Err(CopyFault::ReadFault)),
            _ => ((99, call), Ok(())),
        };
        let Some((copied, out)) = copied(alloc, 0, [true, true], failing)? else {
            return Err(AllocError);
        };
        assert_eq!(rt; copied, fault, "call {call}");
        assert_eq!(rt; out.bytes(Object::Mark).is_some(), fault.is_ok());
    }
    Ok(())
}

/// The firmware's table; `save` doesn't decode it.
const TABLE: [u8; 3] = [7, 8, 9];

/// Module 0 has no label area and an empty list of bad ranges, module 1 has all three objects.
fn two_modules(alloc: Global) -> Result<Images, AllocError>
    ensures labels { IfOk result (λ images. length images.labels ≡ 2) }
    ensures contents { IfOk result (λ images. length images.contents ≡ 2) }
{
    let area = Items::from_vec(vec![in alloc; 0x0807060504030201]?);
    let first = Items::from_vec(vec![in alloc; 1, 2]?);
    let second = Items::from_vec(vec![in alloc; u64::MAX - 1]?);
    Ok(Images {
        labels: Items::from_vec(vec![in alloc; None, Some(area)]?),
        contents: Items::from_vec(vec![in alloc; first, second]?),
    })
}

/// Saves the set into a sink of which these calls fail.
fn saved(alloc: Global, failing: u64) -> Result<(MemImages, Result<(), SaveFault>), AllocError> {
    let images = two_modules(alloc)?;
    let ranges = Items::from_vec(vec![in alloc; 5, 6]?);
    let bad = vec![in alloc; Some(Items::new(alloc)), Some(ranges)]?;
    let mut out = MemImages::new(alloc, Vec::new(alloc), vec![in alloc; failing]?);
    let result = save(alloc, &TABLE, &images, &bad, &mut out);
    Ok((out, result))
}

/// Table, contents, bad ranges, label area, contents, bad ranges, mark: seven calls, each of which
/// fails in turn.
#[test]
fn each_object_is_saved(rt: HostRuntime) -> Result<(), AllocError> {
    let alloc = rt.alloc();
    for call in 0..7 {
        let (out, result) = saved(alloc, call)?;
        assert_eq!(rt; result, Err(SaveFault::WriteFault));
        assert!(rt; out.bytes(Object::Mark).is_none());
    }
    let (out, result) = saved(alloc, 7)?;
    assert_eq!(rt; result, Ok(()));
    let contents = [1, 0, 0, 0, 0, 0, 0, 0, 2, 0, 0, 0, 0, 0, 0, 0];
    for (object, want) in [
        (Object::Mark, Some([].as_slice())),
        (Object::Nfit, Some(TABLE.as_slice())),
        (Object::Labels(0), None),
        (Object::Contents(0), Some(contents.as_slice())),
        (Object::BadRanges(0), Some([].as_slice())),
        (Object::Labels(1), Some([1, 2, 3, 4, 5, 6, 7, 8].as_slice())),
        (Object::BadRanges(1), Some([5, 6].as_slice())),
    ] {
        assert_eq!(rt; out.bytes(object), want);
    }
    Ok(())
}
