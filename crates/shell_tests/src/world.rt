//! Image sets in memory, and runs on them.
use crate::tables::TWO_WAY;
use nvd_media::{ListChooser, MemImages, MemText, NoGate, Object, Stored};
use shell_reports::Status;
use shell_run::run;
use std::alloc::{AllocError, Global};
use std::sync::Wait;
use std::thread::Threads;

/// Bytes at an offset.
type Patch = (usize, &'static [u8]);

/// The size of a label area with two slots, in bytes.
pub const TWO_SLOTS: usize = 1024;

/// The bytes of each module that lie in the region of [`SMALL`].
const SMALL_BYTES: usize = 8192;

/// What makes of [`TWO_WAY`] a table of two modules of [`SMALL_BYTES`] each.
const SMALL: &[Patch] = &[
    (81, b"\x40"),
    (83, b"\0"),
    (113, b"\x20"),
    (115, b"\0"),
    (161, b"\x20"),
    (163, b"\0"),
];

/// The lines of [`TWO_WAY`] with [`SMALL`].
pub const SMALL_TEXT: &str =
    "module 0 handle 16\nmodule 1 handle 32\nregion 0 index 1 base 4294967296 length 16384 modules 0 1 cookie 0002e2420000346b unit 4096\n";

/// The bytes of each module that lie in the region of [`LARGE`]: both hold the smallest arena.
const LARGE_BYTES: usize = 8 << 20;

/// What makes of [`TWO_WAY`] a table of two modules of [`LARGE_BYTES`] each.
const LARGE: &[Patch] = &[(83, b"\x01"), (114, b"\x80\0"), (162, b"\x80\0")];

/// The UUID of the namespace of [`with_sectors`].
pub const SECTORS: &str = "11111111-1111-4111-8111-111111111111";

/// The words that make it.
const CREATE: &[&str] = &[
    "create", "--uuid", SECTORS, "--name", "a", "--region", "0", "--size", "16777216", "--mode",
    "sector", "--lanes", "4",
];

/// [`TWO_WAY`] with patches, and its checksum set right.
fn table_with(alloc: Global, patches: &[Patch]) -> Result<Vec<u8>, AllocError> {
    let mut bytes = Vec::from_slice(alloc, TWO_WAY)?;
    for (at, new) in patches {
        for (slot, byte) in bytes.iter_mut().skip(*at).zip(*new) {
            *slot = *byte;
        }
    }
    let sum = bytes.iter().fold(0u8, |sum, byte| sum.wrapping_add(*byte));
    if let Some(checksum) = bytes.get_mut(9) {
        *checksum = checksum.wrapping_sub(sum);
    }
    Ok(bytes)
}

/// A set of two modules of which the table has these patches, each with so many equal bytes and a label area of zeros of two
/// slots.
fn pair_of(
    alloc: Global,
    patches: &[Patch],
    byte: u8,
    count: usize,
) -> Result<Vec<Stored>, AllocError> {
    let mut objects = Vec::new(alloc);
    for (object, bytes) in [
        (Object::Mark, Vec::new(alloc)),
        (Object::Nfit, table_with(alloc, patches)?),
        (Object::Labels(0), vec![in alloc; 0; TWO_SLOTS]?),
        (Object::Contents(0), vec![in alloc; byte; count]?),
        (Object::Labels(1), vec![in alloc; 0; TWO_SLOTS]?),
        (Object::Contents(1), vec![in alloc; byte; count]?),
    ] {
        objects.push(Stored { object, bytes })?;
    }
    Ok(objects)
}

/// A set of two modules of 8,192 bytes, each with a label area of zeros of two slots.
pub fn pair(alloc: Global) -> Result<Vec<Stored>, AllocError> {
    pair_of(alloc, SMALL, 0xa5, SMALL_BYTES)
}

/// The same objects again.
fn copied(alloc: Global, objects: &[Stored]) -> Result<Vec<Stored>, AllocError> {
    let mut again = Vec::new(alloc);
    for stored in objects {
        again.push(Stored {
            object: stored.object,
            bytes: Vec::from_slice(alloc, &stored.bytes)?,
        })?;
    }
    Ok(again)
}

/// Of which calls on the source, the script, the sink and the text, counted from 0, each fails.
#[derive(Clone, Copy)]
pub struct Fails<'a> {
    pub source: &'a [u64],
    pub script: &'a [u64],
    pub sink: &'a [u64],
    pub text: &'a [u64],
}

/// No call fails.
pub const NEVER: Fails<'static> = Fails {
    source: &[],
    script: &[],
    sink: &[],
    text: &[],
};

/// A run that has ended: its status, its text and what it saved.
#[derive(Drop)]
pub struct Made {
    pub status: Status,
    pub text: String,
    pub set: MemImages,
}

/// A run of words and a script on a set. All tests have choosers of one type: the program is compiled once for each.
pub fn run_on<R: Threads + Wait + Sync>(
    rt: &R,
    alloc: Global,
    words: &[&str],
    script: &str,
    objects: &[Stored],
    choose: &mut ListChooser,
    fails: Fails<'_>,
) -> Result<Made, AllocError> {
    let mut owned = Vec::new(alloc);
    for word in words {
        owned.push(String::from_str(alloc, word)?)?;
    }
    let failing = Vec::from_slice(alloc, fails.source)?;
    let mut images = MemImages::new(alloc, copied(alloc, objects)?, failing);
    let mut set = MemImages::new(alloc, Vec::new(alloc), Vec::from_slice(alloc, fails.sink)?);
    let lines = Vec::from_slice(alloc, script.as_bytes())?;
    let mut script = MemText::new(lines, Vec::from_slice(alloc, fails.script)?);
    let mut text = MemText::new(Vec::new(alloc), Vec::from_slice(alloc, fails.text)?);
    let status = run(
        rt,
        alloc,
        &owned,
        &mut images,
        &mut script,
        &mut set,
        &mut text,
        choose,
        &NoGate,
    );
    let text = String::from_utf8_lossy(alloc, text.bytes())?;
    Ok(Made { status, text, set })
}

/// The objects of a set that was saved.
fn objects_of(alloc: Global, set: &MemImages) -> Result<Vec<Stored>, AllocError> {
    let mut objects = Vec::new(alloc);
    for object in [
        Object::Mark,
        Object::Nfit,
        Object::Labels(0),
        Object::Contents(0),
        Object::Labels(1),
        Object::Contents(1),
    ] {
        if let Some(bytes) = set.bytes(object) {
            objects.push(Stored {
                object,
                bytes: Vec::from_slice(alloc, bytes)?,
            })?;
        }
    }
    Ok(objects)
}

/// A set with fresh index blocks in the label areas of its modules.
pub fn initialised<R: Threads + Wait + Sync>(
    rt: &R,
    alloc: Global,
    objects: Vec<Stored>,
) -> Result<Vec<Stored>, AllocError> {
    let mut objects = objects;
    for module in ["0", "1"] {
        let mut choose = ListChooser::new(Vec::new(alloc));
        let words = ["init", module];
        let made = run_on(rt, alloc, &words, "", &objects, &mut choose, NEVER)?;
        objects = objects_of(alloc, &made.set)?;
    }
    Ok(objects)
}

/// A set of two modules of 8 MiB of zeros, with a namespace of sectors over all of them.
pub fn with_sectors<R: Threads + Wait + Sync>(
    rt: &R,
    alloc: Global,
) -> Result<Vec<Stored>, AllocError> {
    let ready = initialised(rt, alloc, pair_of(alloc, LARGE, 0, LARGE_BYTES)?)?;
    let mut choose = ListChooser::new(Vec::new(alloc));
    let made = run_on(rt, alloc, CREATE, "", &ready, &mut choose, NEVER)?;
    objects_of(alloc, &made.set)
}
