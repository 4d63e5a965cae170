//! The words of a new arena of 16 MiB with four lanes.
use arena_layout::plan;
use arena_open::format_arena;
use cut_words::{CutWords, Fuse, WordSpace};
use nvd_media::ListChooser;
use std::alloc::{AllocError, Global};
use std::test::Fail;
use uuid::Uuid;

/// The arena's words.
const WORDS: usize = 2_097_152;

pub(crate) fn parent() -> Uuid {
    Uuid::from_u128(2)
}

pub(crate) fn new_words(alloc: Global) -> Result<Vec<u64>, Fail> {
    let layout = plan(16 << 20, 512, 4)?;
    let mut space = CutWords::new(alloc, vec![in alloc; 0; WORDS]?)?;
    if layout.size / 8 > space.count() {
        return Err(AllocError)?;
    }
    let mut fuse = Fuse::none();
    format_arena(
        &mut space,
        &mut fuse,
        0,
        &layout,
        &Uuid::from_u128(1),
        &parent(),
    )?;
    Ok(space.leave(&mut ListChooser::new(Vec::new(alloc))))
}
