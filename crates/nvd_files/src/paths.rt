//! The paths of an image directory.
ghost use Rattle.std.specs.Prelude.{◌≡◌, IfOk, string_bytes};
ghost use Rattle.nvd_files.specs.Files.{file_name_of};

use nvd_media::Object;
use std::alloc::{AllocError, Global};
use std::os::unix::fs::MetadataExt;
use std::path::Path;
use std::rt::Files;
use std::{fs, io};

/// The most directories that a path can go up: more than a path of the system's longest, 4,096
/// bytes, can.
const DEEPEST: usize = 1366;

/// Returns the name of an object's file in an image directory.
pub fn file_name(alloc: Global, object: Object) -> Result<String, AllocError>
    ensures { IfOk result (λ name. string_bytes name ≡ file_name_of object) }
{
    match object {
        Object::Mark => String::from_str(alloc, "complete"),
        Object::Nfit => String::from_str(alloc, "nfit.bin"),
        Object::Labels(module) => format!(in alloc; "labels-{}.bin", module),
        Object::Contents(module) => format!(in alloc; "contents-{}.bin", module),
        Object::BadRanges(module) => format!(in alloc; "badranges-{}.bin", module),
    }
}

/// Returns the path of an object's file in an image directory.
pub(crate) fn file_path(alloc: Global, directory: &str, object: Object) -> io::Result<String> {
    let name = file_name(alloc, object)?;
    Ok(format!(in alloc; "{}/{}", directory, name)?)
}

/// Returns the path of the directory that has a path's last name.
pub(crate) fn above(path: &str) -> &str {
    match Path::new(path).parent() {
        Some(parent) if parent.as_str().is_empty() => ".",
        Some(parent) => parent.as_str(),
        None => path,
    }
}

/// The device and the inode of a directory. Two paths have the same ones exactly if they lead to
/// the same directory.
#[derive(Clone, Copy, Debug, PartialEq, Eq)]
pub(crate) struct DirectoryId {
    device: u64,
    inode: u64,
}

/// Returns which directory a path leads to.
pub(crate) fn id_of(rt: &impl Files, path: &str) -> io::Result<DirectoryId> {
    let metadata = fs::metadata(rt, path)?;
    if !metadata.is_dir() {
        return Err(io::Error::from(io::ErrorKind::NotADirectory));
    }
    Ok(DirectoryId {
        device: metadata.dev(),
        inode: metadata.ino(),
    })
}

/// Returns whether a directory is another one, or lies somewhere below it.
///
/// It goes up by `..` and compares directories, not their names. So links don't matter, nor do
/// names above that aren't UTF-8. It stops at a directory that the caller may not look into.
pub(crate) fn stands_in<R: Files + AllocGlobal>(
    rt: &R,
    directory: &str,
    other: &str,
) -> io::Result<bool> {
    let other = id_of(rt, other)?;
    let mut path = String::from_str(rt.alloc(), directory)?;
    let mut here = id_of(rt, &path)?;
    for _ in 0..DEEPEST {
        if here == other {
            return Ok(true);
        }
        path.push_str("/..")?;
        match id_of(rt, &path) {
            // the root is its own parent
            Ok(up) if up == here => return Ok(false),
            Ok(up) => here = up,
            Err(e) if e.kind() == io::ErrorKind::PermissionDenied => return Ok(false),
            Err(e) => return Err(e),
        }
    }
    Err(io::Error::from(io::ErrorKind::InvalidInput))
}
