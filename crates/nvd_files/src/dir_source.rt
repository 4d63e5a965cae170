//! Reads an image set from a directory.
ghost use Rattle.std.specs.Prelude.{◌≡◌, ◌<◌, ◌≤◌, true, None, Some, IfOk, slice_get, vec_len};
ghost use Rattle.nvd_media.specs.Causes.{Rose};
ghost use Rattle.nvd_media.specs.Images.{is_object};
ghost use Rattle.nvd_files.specs.Files.{IsFileOf};

use crate::paths::file_path;
use nvd_media::{Failed, ImageSource, Object};
use std::fs::{File, Metadata};
use std::os::unix::fs::{FileExt, MetadataExt};
use std::rt::Files;
use std::{fs, io};

/// Shows whether a file has changed.
#[derive(Clone, Copy, Debug, PartialEq, Eq)]
struct Stamp {
    /// Its length in bytes.
    length: u64,
    /// When its bytes last changed: whole seconds since 1970, and the nanoseconds after them.
    seconds: i64,
    nanoseconds: i64,
}

/// Returns the stamp of a regular file. It refuses other files.
fn stamp_of(metadata: &Metadata) -> io::Result<Stamp> {
    if !metadata.is_file() {
        return Err(io::Error::from(io::ErrorKind::InvalidInput));
    }
    Ok(Stamp {
        length: metadata.len(),
        seconds: metadata.mtime(),
        nanoseconds: metadata.mtime_nsec(),
    })
}

/// How many files a source keeps open: the contents of as many modules as a set can have.
const FILES: usize = 64;

/// An object's file, open for reading.
#[derive(Drop)]
struct Opened {
    object: Object,
    file: File,
}

/// An image set in a directory, with a file for each object.
///
/// It reveals no bytes. A missing file is an absent object. These are counted failures: everything
/// else that the system refuses, a link to a missing target, a file that isn't regular, one that
/// ends too early, and one whose length or time of change differs from the first look.
///
/// An object is opened when it is first read, and further reads use that descriptor. Of more than 64
/// objects the one that was opened first is closed, and all are if the next one can't be opened,
/// since there may be too few descriptors. So a file that is replaced meanwhile is read from its old
/// bytes alone, or is a failure.
#[derive(Drop)]
pub struct DirSource<'a, R: Files<File = File> + AllocGlobal> {
    rt: &'a R,
    directory: &'a str,
    /// Each object's stamp at the first look.
    seen: Vec<(Object, Stamp)>,
    /// The files that are open, in the order in which they were opened.
    opened: Vec<Opened>,
    faults: u64,
}

impl<'a, R: Files<File = File> + AllocGlobal> DirSource<'a, R> {
    /// Makes a source for a directory. It opens nothing before the first call.
    pub fn new(rt: &'a R, directory: &'a str) -> DirSource<'a, R> {
        DirSource {
            rt,
            directory,
            seen: Vec::new(rt.alloc()),
            opened: Vec::new(rt.alloc()),
            faults: 0,
        }
    }

    fn path(&self, object: Object) -> io::Result<String> {
        file_path(self.rt.alloc(), self.directory, object)
    }

    /// Refuses an object whose file isn't regular, or has changed since the first look.
    fn look(&mut self, object: Object, metadata: &Metadata) -> io::Result<()>
        ensures { self.new.faults ≡ self.old.faults }
    {
        let stamp = stamp_of(metadata)?;
        match self.seen.iter().find(|entry| entry.0 == object) {
            Some(entry) if entry.1 == stamp => Ok(()),
            Some(_) => Err(io::Error::from(io::ErrorKind::InvalidData)),
            None => Ok(self.seen.push((object, stamp))?),
        }
    }

    fn file_length(&mut self, object: Object) -> io::Result<Option<u64>>
        ensures { self.new.faults ≡ self.old.faults }
    {
        let path = self.path(object)?;
        match fs::metadata(self.rt, &path) {
            Ok(metadata) => {
                self.look(object, &metadata)?;
                Ok(Some(metadata.len()))
            }
            Err(e) if e.kind() == io::ErrorKind::NotFound => self.absent(&path),
            Err(e) => Err(e),
        }
    }

    /// Returns `None` if there is nothing at a path; a link to a missing target is a failure.
    fn absent(&self, path: &str) -> io::Result<Option<u64>> {
        match fs::symlink_metadata(self.rt, path) {
            Ok(_) => Err(io::Error::from(io::ErrorKind::NotFound)),
            Err(e) if e.kind() == io::ErrorKind::NotFound => Ok(None),
            Err(e) => Err(e),
        }
    }

    /// Opens an object's file.
    ///
    /// Opening a FIFO waits for a writer, and std can't ask the system not to. So the path is
    /// checked before it is opened, and the open file again: only a FIFO that is put there between
    /// the two makes this wait.
    fn open(&mut self, object: Object) -> io::Result<Opened>
        ensures faults { self.new.faults ≡ self.old.faults }
        ensures of { IfOk result (λ opened. is_object opened.object object ≡ true) }
    {
        let path = self.path(object)?;
        self.look(object, &fs::metadata(self.rt, &path)?)?;
        let file = fs::open(self.rt, &path)?;
        self.look(object, &file.metadata()?)?;
        Ok(Opened { object, file })
    }

    /// Opens an object's file as the last of the open ones, and returns its place.
    fn add(&mut self, object: Object) -> io::Result<usize>
        ensures faults { self.new.faults ≡ self.old.faults }
        ensures of { IfOk result (λ k. IsFileOf object self.new.opened.items k) }
    {
        let opened = match self.open(object) {
            Err(_) if !self.opened.is_empty() => {
                self.opened.clear();
                self.open(object)?
            }
            found => found?,
        };
        if self.opened.len() >= FILES {
            self.opened.remove(0);
        }
        let place = self.opened.len();
        self.opened.push(opened)?;
        Ok(place)
    }

    /// Returns where an object's file stands among the open ones, and opens it if it isn't there.
    fn place_of(&mut self, object: Object) -> io::Result<usize>
        ensures faults { self.new.faults ≡ self.old.faults }
        ensures of { IfOk result (λ k. IsFileOf object self.new.opened.items k) }
    {
        for k in 0..self.opened.len() {
            if self.opened[k].object.is(object) {
                return Ok(k);
            }
        }
        self.add(object)
    }

    fn fill(&mut self, object: Object, at: u64, into: &mut [u8]) -> io::Result<()>
        ensures { self.new.faults ≡ self.old.faults }
    {
        let place = self.place_of(object)?;
        self.opened[place].file.read_exact_at(into, at)?;
        let metadata = self.opened[place].file.metadata()?;
        self.look(object, &metadata)
    }

    fn fail(&mut self) -> Failed
        ensures later { self.old.faults ≤ self.new.faults }
        ensures rose { Rose self.old.faults self.new.faults }
    {
        self.faults = self.faults.saturating_add(1);
        Failed
    }
}

impl<R: Files<File = File> + AllocGlobal> ImageSource for DirSource<'_, R> {
    ghost held = { λ _. None };

    ghost faults = { λ images. images.faults };

    fn length(&mut self, object: Object) -> Result<Option<u64>, Failed> {
        match self.file_length(object) {
            Ok(length) => Ok(length),
            Err(_) => Err(self.fail()),
        }
    }

    fn read(&mut self, object: Object, at: u64, into: &mut [u8]) -> Result<(), Failed> {
        match self.fill(object, at, into) {
            Ok(()) => Ok(()),
            Err(_) => Err(self.fail()),
        }
    }
}
