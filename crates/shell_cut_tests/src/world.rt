//! Image sets in memory, and runs on them.
use crate::tables::TWO_WAY;
use nvd_media::{ListChooser, MemImages, MemText, NoGate, Object, Stored};
use shell_reports::Status;
use shell_run::run;
use std::alloc::{AllocError, Global};
use std::sync::Wait;
use std::thread::Threads;

/// Bytes at an offset.
pub type Patch = (usize, &'static [u8]);

/// The size of a label area with two slots, and of one with four, in bytes.
pub const TWO_SLOTS: usize = 1024;

pub const FOUR_SLOTS: usize = 1536;

/// The bytes of each module that lie in the region of [`SMALL`].
const BYTES: usize = 8192;

/// What makes of [`TWO_WAY`] a table of two modules of [`BYTES`] each.
const SMALL: &[Patch] = &[
    (81, b"\x40"),
    (83, b"\0"),
    (113, b"\x20"),
    (115, b"\0"),
    (161, b"\x20"),
    (163, b"\0"),
];

/// A table with some bytes changed, and its checksum set right.
pub fn table_of(alloc: Global, table: &[u8], changes: &[Patch]) -> Result<Vec<u8>, AllocError> {
    let mut bytes = Vec::from_slice(alloc, table)?;
    for (at, new) in changes {
        for (slot, byte) in bytes.iter_mut().skip(*at).zip(*new) {
            *slot = *byte;
        }
    }
    let sum = bytes.iter().fold(0u8, |sum, byte| sum.wrapping_add(*byte));
    if let Some(checksum) = bytes.get_mut(9) {
        *checksum = checksum.wrapping_sub(sum);
    }
    Ok(bytes)
}

/// A set of modules of so many bytes under a table, each with a label area of zeros of a size.
pub fn modules(
    alloc: Global,
    nfit: Vec<u8>,
    count: u32,
    bytes: usize,
    area: usize,
) -> Result<Vec<Stored>, AllocError> {
    let mut objects = Vec::new(alloc);
    objects.push(Stored {
        object: Object::Mark,
        bytes: Vec::new(alloc),
    })?;
    objects.push(Stored {
        object: Object::Nfit,
        bytes: nfit,
    })?;
    for module in 0..count {
        objects.push(Stored {
            object: Object::Labels(module),
            bytes: vec![in alloc; 0; area]?,
        })?;
        objects.push(Stored {
            object: Object::Contents(module),
            bytes: vec![in alloc; 0xa5; bytes]?,
        })?;
    }
    Ok(objects)
}

/// A set of two modules of 8,192 bytes.
pub fn pair(alloc: Global, area: usize) -> Result<Vec<Stored>, AllocError> {
    modules(alloc, table_of(alloc, TWO_WAY, SMALL)?, 2, BYTES, area)
}

/// The same objects again.
pub fn copied(alloc: Global, objects: &[Stored]) -> Result<Vec<Stored>, AllocError> {
    let mut again = Vec::new(alloc);
    for stored in objects {
        again.push(Stored {
            object: stored.object,
            bytes: Vec::from_slice(alloc, &stored.bytes)?,
        })?;
    }
    Ok(again)
}

/// The objects of a set that was saved.
pub fn objects_of(alloc: Global, set: &MemImages) -> Result<Vec<Stored>, AllocError> {
    let mut objects = Vec::new(alloc);
    for object in [
        Object::Mark,
        Object::Nfit,
        Object::Labels(0),
        Object::Contents(0),
        Object::Labels(1),
        Object::Contents(1),
    ] {
        if let Some(bytes) = set.bytes(object) {
            objects.push(Stored {
                object,
                bytes: Vec::from_slice(alloc, bytes)?,
            })?;
        }
    }
    Ok(objects)
}

/// The status, the text and the saved objects of a run.
#[derive(Drop)]
pub struct AfterRun {
    pub status: Status,
    pub text: String,
    pub objects: Vec<Stored>,
}

/// A run of words on a set, with a chooser that always answers so.
pub fn ran<R: Threads + Wait + Sync>(
    rt: &R,
    alloc: Global,
    words: &[&str],
    objects: &[Stored],
    stays: bool,
) -> Result<AfterRun, AllocError> {
    let mut owned = Vec::new(alloc);
    for word in words {
        owned.push(String::from_str(alloc, word)?)?;
    }
    let mut images = MemImages::new(alloc, copied(alloc, objects)?, Vec::new(alloc));
    let mut set = MemImages::new(alloc, Vec::new(alloc), Vec::new(alloc));
    let mut script = MemText::new(Vec::new(alloc), Vec::new(alloc));
    let mut text = MemText::new(Vec::new(alloc), Vec::new(alloc));
    let mut choose = ListChooser::new(vec![in alloc; stays; 64]?);
    let status = run(
        rt,
        alloc,
        &owned,
        &mut images,
        &mut script,
        &mut set,
        &mut text,
        &mut choose,
        &NoGate,
    );
    let text = String::from_utf8_lossy(alloc, text.bytes())?;
    let objects = objects_of(alloc, &set)?;
    Ok(AfterRun {
        status,
        text,
        objects,
    })
}

/// What a command prints of a set.
pub fn shown<R: Threads + Wait + Sync>(
    rt: &R,
    alloc: Global,
    words: &[&str],
    objects: &[Stored],
) -> Result<String, AllocError> {
    Ok(ran(rt, alloc, words, objects, false)?.text)
}

/// A set with fresh index blocks in the label areas of its modules.
pub fn initialised<R: Threads + Wait + Sync>(
    rt: &R,
    alloc: Global,
    objects: Vec<Stored>,
) -> Result<Vec<Stored>, AllocError> {
    let objects = ran(rt, alloc, &["init", "0"], &objects, false)?.objects;
    let second = ran(rt, alloc, &["init", "1"], &objects, false)?;
    Ok(if second.status == Status::Ok {
        second.objects
    } else {
        objects
    })
}
