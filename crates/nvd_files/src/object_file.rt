//! The file of an object while it is written.

use nvd_media::Object;
use std::fs::{File, OpenOptions};
use std::os::unix::fs::FileExt;
use std::rt::Files;
use std::simd::prelude::*;
use std::thread::{JoinHandle, Threads};
use std::{io, thread};

/// After this many bytes a thread begins to sync them while the next ones are written: 8 MiB.
const SETTLED_TOGETHER: u64 = 8 << 20;

/// At most so many threads sync bytes of one object.
const SETTLING: usize = 8;

/// The size of the blocks that most file systems allocate or leave out.
const BLOCK: usize = 4096;

/// How many bytes are compared with zero at once.
const LANES: usize = 64;

/// Returns whether a block consists of whole lanes of zero bytes.
fn is_zero(block: &[u8]) -> bool {
    let (lanes, rest) = block.as_chunks::<LANES>();
    rest.is_empty()
        && lanes
            .iter()
            .all(|lane| u8x64::from_array(*lane) == u8x64::splat(0))
}

/// The file of an object, open for writing at its end.
///
/// Blocks of zero bytes are skipped, so they take no room on a file system with sparse files.
#[derive(Drop)]
pub(crate) struct ObjectFile {
    pub(crate) object: Object,
    file: File,
    /// The object's size in bytes. The file is shorter while it ends with skipped blocks.
    length: u64,
    /// How many bytes were written since a thread last began to sync.
    unsettled: u64,
    /// The threads that sync what was written before, the oldest first.
    settling: Vec<JoinHandle<io::Result<()>>>,
}

/// Waits for all these threads, and fails if one of them failed.
pub(crate) fn join_all<R: Threads>(
    rt: &R,
    threads: Vec<JoinHandle<io::Result<()>>>,
) -> io::Result<()> {
    let mut joined = Ok(());
    for thread in threads {
        joined = joined.and(thread.join(rt));
    }
    joined
}

impl ObjectFile {
    /// Opens the file of an object that has `length` bytes so far. With 0 bytes the file is made, and must not exist yet; else it must have
    /// this length. So a file of another run is never written to.
    pub(crate) fn open<R: Files<File = File> + AllocGlobal>(
        rt: &R,
        object: Object,
        path: &str,
        length: u64,
    ) -> io::Result<ObjectFile> {
        let is_new = length == 0;
        let file = OpenOptions::new()
            .write(true)
            .create_new(is_new)
            .open(rt, path)?;
        if file.metadata()?.len() != length {
            return Err(io::Error::from(io::ErrorKind::InvalidData));
        }
        Ok(ObjectFile {
            object,
            file,
            length,
            unsettled: 0,
            settling: Vec::new(rt.alloc()),
        })
    }

    /// Appends bytes.
    fn put(&mut self, bytes: &[u8]) -> io::Result<()> {
        if bytes.is_empty() {
            return Ok(());
        }
        self.file.write_all_at(bytes, self.length)?;
        let count = bytes.len() as u64;
        self.length = self.length.saturating_add(count);
        self.unsettled = self.unsettled.saturating_add(count);
        Ok(())
    }

    /// Appends bytes, but skips blocks of zero bytes.
    pub(crate) fn add(&mut self, bytes: &[u8]) -> io::Result<()> {
        let mut written = 0;
        let mut at = 0;
        while at < bytes.len() {
            let end = at + BLOCK.min(bytes.len() - at);
            if is_zero(&bytes[at..end]) {
                self.put(&bytes[written..at])?;
                self.length = self.length.saturating_add((end - at) as u64);
                written = end;
            }
            at = end;
        }
        self.put(&bytes[written..])
    }

    /// Lets a thread sync what was written, once it is 8 MiB. If eight threads do so, it waits for
    /// the oldest first. If no thread can be started, `settle` syncs it all.
    pub(crate) fn settle_behind<R: Threads>(&mut self, rt: &R) -> io::Result<()> {
        if self.unsettled < SETTLED_TOGETHER {
            return Ok(());
        }
        self.unsettled = 0;
        if self.settling.len() >= SETTLING {
            self.settling.remove(0).join(rt)?;
        }
        // (a thread that is started must be kept)
        self.settling.reserve(1)?;
        let file = self.file.try_clone()?;
        if let Ok(thread) = thread::spawn(rt, move || file.sync_data()) {
            self.settling.push(thread)?;
        }
        Ok(())
    }

    /// Gives the file its full length, and lets a thread sync it. If no thread can be started, it is
    /// synced here, and none is returned.
    pub(crate) fn settle<R: Threads>(
        self,
        rt: &R,
    ) -> io::Result<Option<JoinHandle<io::Result<()>>>> {
        join_all(rt, self.settling)?;
        self.file.set_len(self.length)?;
        let file = self.file.try_clone()?;
        match thread::spawn(rt, move || file.sync_all()) {
            Ok(thread) => Ok(Some(thread)),
            Err(_) => {
                self.file.sync_all()?;
                Ok(None)
            }
        }
    }
}
