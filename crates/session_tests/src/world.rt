//! A set with one sector namespace of 16 MiB, and runs on it.
use nvd_media::{Gate, MemImages, MemText, Object, SeedChooser, Stored};
use shell_reports::Status;
use shell_run::run;
use std::alloc::{AllocError, Global};
use std::sync::Wait;
use std::thread::Threads;

/// A table with one range over one module of 16 MiB, without interleave structure, made by a script from the fields of ACPI 6.5.
pub const ONE_WAY: &[u8] = &[
    0x4e, 0x46, 0x49, 0x54, 0xb0, 0x00, 0x00, 0x00, 0x01, 0xbf, 0x4f, 0x57, 0x4e, 0x4d, 0x41, 0x44,
    0x48, 0x41, 0x52, 0x4e, 0x45, 0x53, 0x53, 0x20, 0x01, 0x00, 0x00, 0x00, 0x48, 0x52, 0x4e, 0x53,
    0x01, 0x00, 0x00, 0x00, 0x00, 0x00, 0x00, 0x00, 0x00, 0x00, 0x38, 0x00, 0x01, 0x00, 0x02, 0x00,
    0x00, 0x00, 0x00, 0x00, 0x00, 0x00, 0x00, 0x00, 0x79, 0xd3, 0xf0, 0x66, 0xf3, 0xb4, 0x74, 0x40,
    0xac, 0x43, 0x0d, 0x33, 0x18, 0xb7, 0x8c, 0xdb, 0x00, 0x00, 0x00, 0x00, 0x01, 0x00, 0x00, 0x00,
    0x00, 0x00, 0x00, 0x01, 0x00, 0x00, 0x00, 0x00, 0x08, 0x80, 0x00, 0x00, 0x00, 0x00, 0x00, 0x00,
    0x01, 0x00, 0x30, 0x00, 0x10, 0x00, 0x00, 0x00, 0x01, 0x00, 0x00, 0x00, 0x01, 0x00, 0x01, 0x00,
    0x00, 0x00, 0x00, 0x01, 0x00, 0x00, 0x00, 0x00, 0x00, 0x00, 0x00, 0x00, 0x00, 0x00, 0x00, 0x00,
    0x00, 0x00, 0x00, 0x00, 0x00, 0x00, 0x00, 0x00, 0x00, 0x00, 0x01, 0x00, 0x00, 0x00, 0x00, 0x00,
    0x04, 0x00, 0x20, 0x00, 0x01, 0x00, 0x34, 0x12, 0x01, 0x00, 0x01, 0x00, 0x34, 0x12, 0x01, 0x00,
    0x01, 0x00, 0x01, 0x00, 0x00, 0x00, 0x00, 0x00, 0x01, 0x00, 0x00, 0x00, 0x01, 0x03, 0x00, 0x00,
];

/// The bytes of the module.
const BYTES: usize = 16_777_216;

/// The bytes of its label area.
const AREA: usize = 4096;

/// The objects of a set of one module.
const OBJECTS: [Object; 4] = [
    Object::Mark,
    Object::Nfit,
    Object::Labels(0),
    Object::Contents(0),
];

/// The set of one module, without index blocks.
pub fn blank(alloc: Global) -> Result<Vec<Stored>, AllocError> {
    let mut objects = Vec::new(alloc);
    for object in OBJECTS {
        let bytes = match object {
            Object::Nfit => Vec::from_slice(alloc, ONE_WAY)?,
            Object::Labels(_) => vec![in alloc; 0; AREA]?,
            Object::Contents(_) => vec![in alloc; 0; BYTES]?,
            _ => Vec::new(alloc),
        };
        objects.push(Stored { object, bytes })?;
    }
    Ok(objects)
}

/// The objects of a set that was saved.
fn objects_of(alloc: Global, set: &MemImages) -> Result<Vec<Stored>, AllocError> {
    let mut objects = Vec::new(alloc);
    for object in OBJECTS {
        if let Some(bytes) = set.bytes(object) {
            objects.push(Stored {
                object,
                bytes: Vec::from_slice(alloc, bytes)?,
            })?;
        }
    }
    Ok(objects)
}

/// The status, the text and the saved objects of a run.
#[derive(Drop)]
pub struct AfterRun {
    pub status: Status,
    pub text: String,
    pub objects: Vec<Stored>,
}

/// A run of words and a script on a set.
pub fn ran<R: Threads + Wait + Sync, G: Gate>(
    rt: &R,
    alloc: Global,
    words: &[&str],
    script: &str,
    objects: Vec<Stored>,
    gate: &G,
) -> Result<AfterRun, AllocError> {
    let mut owned = Vec::new(alloc);
    for word in words {
        owned.push(String::from_str(alloc, word)?)?;
    }
    let mut images = MemImages::new(alloc, objects, Vec::new(alloc));
    let mut set = MemImages::new(alloc, Vec::new(alloc), Vec::new(alloc));
    let lines = Vec::from_slice(alloc, script.as_bytes())?;
    let mut script = MemText::new(lines, Vec::new(alloc));
    let mut text = MemText::new(Vec::new(alloc), Vec::new(alloc));
    let mut choose = SeedChooser::new(0);
    let status = run(
        rt,
        alloc,
        &owned,
        &mut images,
        &mut script,
        &mut set,
        &mut text,
        &mut choose,
        gate,
    );
    let text = String::from_utf8_lossy(alloc, text.bytes())?;
    let objects = objects_of(alloc, &set)?;
    Ok(AfterRun {
        status,
        text,
        objects,
    })
}
