use crate::image_tests::firmware;
use image_set::LoadFault;
use nvd_media::{MemImages, Object, Stored};
use set_objects::{ObjectsRead, ReadStop, read_objects};
use std::alloc::{AllocError, Global};

/// Returns a set with a mark, the table, and objects of these lengths.
fn set_of(alloc: Global, lengths: &[(Object, usize)]) -> Result<Vec<Stored>, AllocError> {
    let mut objects = Vec::new(alloc);
    for (object, bytes) in [
        (Object::Mark, Vec::new(alloc)),
        (Object::Nfit, firmware(alloc)?),
    ] {
        objects.push(Stored { object, bytes })?;
    }
    for (object, length) in lengths {
        let bytes = vec![in alloc; 5; *length]?;
        objects.push(Stored {
            object: *object,
            bytes,
        })?;
    }
    Ok(objects)
}

/// Returns the faults of a set's objects; none if no table is read.
fn faults_of(
    alloc: Global,
    lengths: &[(Object, usize)],
) -> Result<Option<Vec<LoadFault>>, AllocError> {
    let mut images = MemImages::new(alloc, set_of(alloc, lengths)?, Vec::new(alloc));
    match read_objects(alloc, &mut images) {
        Ok(ObjectsRead::Table(read)) => Ok(Some(read.faults.into_vec())),
        _ => Ok(None),
    }
}

/// No fault hides that of another object.
#[test]
fn every_fault_is_named(rt: HostRuntime) -> Result<(), AllocError> {
    let alloc = rt.alloc();
    let faults = faults_of(
        alloc,
        &[
            (Object::Labels(0), 1000),
            (Object::Contents(0), 4096),
            (Object::BadRanges(0), 17),
            (Object::Labels(1), 1024),
            (Object::BadRanges(1), 65552),
        ],
    )?;
    let size = |object, bytes| LoadFault::Size { object, bytes };
    let object = Object::Contents(1);
    let named = Vec::from_array(
        alloc,
        [
            size(Object::Labels(0), 1000),
            size(Object::Contents(0), 4096),
            size(Object::BadRanges(0), 17),
            LoadFault::Missing { object },
            size(Object::BadRanges(1), 65552),
        ],
    )?;
    assert!(rt; faults == Some(named));
    Ok(())
}

#[test]
fn a_sound_set_has_no_fault(rt: HostRuntime) -> Result<(), AllocError> {
    let alloc = rt.alloc();
    let faults = faults_of(
        alloc,
        &[
            (Object::Labels(0), 1024),
            (Object::Contents(0), 8192),
            (Object::Contents(1), 8192),
        ],
    )?;
    assert!(rt; faults == Some(Vec::new(alloc)));
    Ok(())
}

/// The objects with a fault count as absent.
#[test]
fn the_others_are_read(rt: HostRuntime) -> Result<(), AllocError> {
    let alloc = rt.alloc();
    let lengths = [
        (Object::Labels(0), 1000),
        (Object::Contents(0), 5),
        (Object::Labels(1), 1024),
        (Object::BadRanges(1), 16),
    ];
    let mut images = MemImages::new(alloc, set_of(alloc, &lengths)?, Vec::new(alloc));
    let Ok(ObjectsRead::Table(read)) = read_objects(alloc, &mut images) else {
        return Err(AllocError);
    };
    assert!(rt; read.outline.area(alloc, 0)?.is_none());
    let area = read.outline.area(alloc, 1)?.unwrap_or(Vec::new(alloc));
    assert!(rt; area == vec![in alloc; 5; 1024]?);
    assert!(rt; read.outline.sizes.as_slice() == [5, 0].as_slice());
    let lists = read.outline.bad.as_slice();
    assert!(rt; lists.len() == 2 && lists[0].is_none() && lists[1].is_some());
    Ok(())
}

#[test]
fn a_missing_mark_is_named(rt: HostRuntime) -> Result<(), AllocError> {
    let alloc = rt.alloc();
    let mut images = MemImages::new(alloc, Vec::new(alloc), Vec::new(alloc));
    let object = Object::Mark;
    match read_objects(alloc, &mut images) {
        Ok(ObjectsRead::NoTable(fault)) => {
            assert_eq!(rt; fault, LoadFault::Missing { object });
        }
        _ => assert!(rt; false),
    }
    Ok(())
}

/// Each of the calls on the source fails in turn: eight lengths, the table, and two objects.
#[test]
fn reading_fails_with_each_call(rt: HostRuntime) -> Result<(), AllocError> {
    let alloc = rt.alloc();
    for call in 0..11 {
        let lengths = [(Object::Labels(1), 1024), (Object::BadRanges(0), 16)];
        let failing = vec![in alloc; call; 1]?;
        let mut images = MemImages::new(alloc, set_of(alloc, &lengths)?, failing);
        let stop = read_objects(alloc, &mut images).err();
        assert_eq!(rt; stop, Some(ReadStop::ReadFault), "call {call}");
    }
    Ok(())
}
