//! One label area of a loaded set, as bytes.
ghost use Rattle.std.specs.Prelude.{◌≡◌, ℕ, List, IfOk, IfSome, length};
ghost use Rattle.std.specs.Option.{option_map};
ghost use Rattle.cut_words.specs.Words.{settled};
ghost use Rattle.label_index.specs.Area.{IsAreaSize};
ghost use Rattle.image_set.specs.Load.{bytes_kept, area_of};
ghost use Rattle.image_set.specs.Outline.{IsOutlined, image_set_with};
ghost use Rattle.image_set.specs.Sound.{IsArea};

use crate::outline::Outline;
use cut_words::{CutWords, WordSpace};
use std::alloc::{AllocError, Global};

/// Returns the bytes of words, the low byte of each first. None of them may be pending.
fn bytes_in(alloc: Global, words: &CutWords) -> Result<Vec<u8>, AllocError>
    requires { words.now ≡ settled words.now.kept }
    ensures bytes { IfOk result (λ bytes. bytes.items ≡ bytes_kept words.now) }
{
    let mut bytes = Vec::new(alloc);
    for i in 0..words.count() {
        bytes.extend_from_slice(&words.load(i).to_le_bytes())?;
    }
    Ok(bytes)
}

/// Returns the bytes of a label area, if there is one.
fn area_bytes(alloc: Global, area: &Option<CutWords>) -> Result<Option<Vec<u8>>, AllocError>
    requires { IsArea area.now }
    ensures area { IfOk result (λ found. option_map (λ bytes. bytes.items) found
        ≡ option_map bytes_kept area.now) }
    ensures sized { IfOk result (λ found. IfSome found (λ bytes. IsAreaSize (length bytes.items))) }
{
    match area {
        Some(words) => Ok(Some(bytes_in(alloc, words)?)),
        None => Ok(None),
    }
}

impl Outline {
    /// Returns the bytes of a module's label area (UEFI 2.10, section 13.19), `None` if the table
    /// doesn't name the module or the module has no label area. The length is a size that a label
    /// area may have. The call fails only if memory runs out.
    pub fn area(&self, alloc: Global, module: u32) -> Result<Option<Vec<u8>>, AllocError>
        requires { IsOutlined self.now }
        ensures area { IfOk result
            (λ found. (contents : List (List ℕ)) → option_map (λ bytes. bytes.items) found
            ≡ area_of (image_set_with self.now contents) «module») }
        ensures sized { IfOk result
            (λ found. IfSome found (λ bytes. IsAreaSize (length bytes.items))) }
    {
        match self.labels.as_slice().get(module as usize) {
            Some(area) => area_bytes(alloc, area),
            None => Ok(None),
        }
    }
}
