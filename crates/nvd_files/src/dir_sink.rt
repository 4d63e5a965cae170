//! Writes an image set as a new directory.
ghost use Rattle.std.specs.Prelude.{◌≡◌, ◌≤◌, None};
ghost use Rattle.nvd_media.specs.Causes.{Rose};

use crate::object_file::{ObjectFile, join_all};
use crate::paths::{DirectoryId, above, file_path, id_of, stands_in};
use nvd_media::{Failed, ImageSink, Object};
use std::fs::{File, OpenOptions};
use std::rt::Files;
use std::thread::{JoinHandle, Threads};
use std::{fs, io, mem};

/// At most so many objects are synced at one time.
const SETTLING: usize = 16;

/// The directory that was made.
#[derive(Drop)]
struct Made {
    /// Which one it is, whatever its path leads to later.
    id: DirectoryId,
    /// It is open, to be synced.
    own: File,
    /// The directory above it, open, too.
    above: File,
}

/// How far the directory was made.
#[derive(Drop)]
enum Progress {
    /// The directory doesn't exist yet.
    Untouched,
    /// The directory was made, and every call so far succeeded.
    Made(Made),
    /// A call failed, so the set is never finished.
    Broken,
}

/// A new directory that becomes an image set, with a file for each object.
///
/// It reveals no bytes. The first write makes the directory. These are counted failures, before
/// anything is made: the directory already exists; it is inside the directory that is read; the
/// directory above it can't be opened to be synced; or it is `-`, which means none. After one
/// failed call, all later calls fail.
///
/// If the directory is removed or moved meanwhile and its path leads to another one, that is a
/// failure too: no file is made there, none that stands there is written to, and no mark is set.
///
/// Threads sync an object, as far as the system's sync calls ensure, while the next ones are
/// written. `finish` waits for them, and returns Ok once the whole set is on the disk, its mark
/// last. If it fails after it made the mark, it removes the mark again; only if the system refuses
/// that too may the mark be there after `Failed`.
#[derive(Drop)]
pub struct DirSink<'a, R: Files<File = File> + AllocGlobal + Threads> {
    rt: &'a R,
    directory: &'a str,
    /// The directory that is read at the same time.
    source: &'a str,
    progress: Progress,
    /// The object that was written last.
    last: Option<ObjectFile>,
    /// The threads that sync earlier objects.
    settling: Vec<JoinHandle<io::Result<()>>>,
    faults: u64,
}

impl<'a, R: Files<File = File> + AllocGlobal + Threads> DirSink<'a, R> {
    /// Makes a sink for a directory that doesn't exist yet, outside the directory `source`. Nothing
    /// is made before the first write.
    pub fn new(rt: &'a R, directory: &'a str, source: &'a str) -> DirSink<'a, R> {
        DirSink {
            rt,
            directory,
            source,
            progress: Progress::Untouched,
            last: None,
            settling: Vec::new(rt.alloc()),
            faults: 0,
        }
    }

    fn path(&self, object: Object) -> io::Result<String> {
        file_path(self.rt.alloc(), self.directory, object)
    }

    /// Makes the directory, and opens it and the one above it.
    fn make(&self) -> io::Result<Made> {
        let above = above(self.directory);
        if self.directory == "-" || stands_in(self.rt, above, self.source)? {
            return Err(io::Error::from(io::ErrorKind::InvalidInput));
        }
        let above = fs::open(self.rt, above)?;
        fs::create_dir(self.rt, self.directory)?;
        let own = fs::open(self.rt, self.directory)?;
        let id = id_of(self.rt, self.directory)?;
        Ok(Made { id, own, above })
    }

    /// Makes the directory before the first file in it.
    fn begin(&mut self) -> io::Result<()>
        ensures { self.new.faults ≡ self.old.faults }
    {
        match &self.progress {
            Progress::Made(_) => Ok(()),
            Progress::Broken => Err(io::Error::from(io::ErrorKind::Other)),
            Progress::Untouched => {
                self.progress = Progress::Made(self.make()?);
                Ok(())
            }
        }
    }

    /// Waits for the threads that sync objects.
    fn join_all(&mut self) -> io::Result<()>
        ensures { self.new.faults ≡ self.old.faults }
    {
        let threads = mem::replace(&mut self.settling, Vec::new(self.rt.alloc()));
        join_all(self.rt, threads)
    }

    /// Lets a thread sync an object that is written.
    fn settle(&mut self, file: ObjectFile) -> io::Result<()>
        ensures { self.new.faults ≡ self.old.faults }
    {
        if self.settling.len() >= SETTLING {
            self.join_all()?;
        }
        // (a thread that is started must be kept)
        self.settling.reserve(1)?;
        if let Some(thread) = file.settle(self.rt)? {
            self.settling.push(thread)?;
        }
        Ok(())
    }

    /// Syncs all objects.
    fn settle_all(&mut self) -> io::Result<()>
        ensures { self.new.faults ≡ self.old.faults }
    {
        if let Some(file) = self.last.take() {
            self.settle(file)?;
        }
        self.join_all()
    }

    /// Returns the directory that was made, if its path still leads there.
    fn here(&self) -> io::Result<&Made> {
        match &self.progress {
            Progress::Made(made) if id_of(self.rt, self.directory)? == made.id => Ok(made),
            _ => Err(io::Error::from(io::ErrorKind::NotFound)),
        }
    }

    /// Returns the file of an object that has `length` bytes so far. It lets a thread sync that of
    /// another object.
    fn object_file(&mut self, object: Object, length: u64) -> io::Result<ObjectFile>
        ensures { self.new.faults ≡ self.old.faults }
    {
        match self.last.take() {
            Some(file) if file.object == object => return Ok(file),
            Some(file) => self.settle(file)?,
            None => {}
        }
        self.here()?;
        ObjectFile::open(self.rt, object, &self.path(object)?, length)
    }

    /// Appends to an object that has `length` bytes so far. Large objects are synced as they grow.
    fn put(&mut self, object: Object, length: u64, bytes: &[u8]) -> io::Result<()>
        ensures { self.new.faults ≡ self.old.faults }
    {
        self.begin()?;
        let mut file = self.object_file(object, length)?;
        file.add(bytes)?;
        file.settle_behind(self.rt)?;
        self.last = Some(file);
        Ok(())
    }

    /// Syncs the directory with its new files, and then the one above it, which names it.
    fn sync_names(&self) -> io::Result<()> {
        let made = self.here()?;
        made.own.sync_all()?;
        made.above.sync_all()
    }

    /// Makes the mark, and syncs it before the directory that names it.
    fn make_mark(&self, path: &str) -> io::Result<()> {
        let made = self.here()?;
        let mark = OpenOptions::new()
            .write(true)
            .create_new(true)
            .open(self.rt, path)?;
        mark.sync_all()?;
        made.own.sync_all()
    }

    /// Removes the mark again, if the system allows it and it is this set's.
    fn take_back_mark(&self, path: &str) {
        if let Ok(made) = self.here() {
            if fs::remove_file(self.rt, path).is_ok() {
                let _ = made.own.sync_all();
            }
        }
    }

    /// Syncs the whole set before it makes the mark.
    fn mark(&mut self) -> io::Result<()>
        ensures { self.new.faults ≡ self.old.faults }
    {
        self.begin()?;
        self.settle_all()?;
        self.sync_names()?;
        let path = self.path(Object::Mark)?;
        let made = self.make_mark(&path);
        if made.is_err() {
            self.take_back_mark(&path);
        }
        made
    }

    /// Counts a failure after which the set is never finished.
    fn break_off(&mut self) -> Failed
        ensures later { self.old.faults ≤ self.new.faults }
        ensures rose { Rose self.old.faults self.new.faults }
    {
        self.progress = Progress::Broken;
        self.faults = self.faults.saturating_add(1);
        Failed
    }
}

impl<R: Files<File = File> + AllocGlobal + Threads> ImageSink for DirSink<'_, R> {
    ghost made = { λ _. None };

    ghost kept = { λ _. None };

    ghost faults = { λ images. images.faults };

    fn write(&mut self, object: Object, at: u64, bytes: &[u8]) -> Result<(), Failed> {
        match self.put(object, at, bytes) {
            Ok(()) => Ok(()),
            Err(_) => Err(self.break_off()),
        }
    }

    fn finish(&mut self) -> Result<(), Failed> {
        match self.mark() {
            Ok(()) => Ok(()),
            Err(_) => Err(self.break_off()),
        }
    }
}
