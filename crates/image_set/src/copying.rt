//! Saving an image set whose contents are copied from the source piece by piece, and may change.
ghost use Rattle.std.specs.Prelude.{◌≡◌, ◌≢◌, ◌+◌, ◌-◌, ◌^◌, ◌<◌, ◌≤◌, min, take, drop, length, vec_len, Some, None, IfOk, OnOk, Err};
ghost use Rattle.std.specs.Option.{ForSome, option_map};
ghost use Rattle.std.specs.Vec.{vec_capacity};
ghost use Rattle.nvd_words.specs.Bytes.{AreBytes};
ghost use Rattle.nvd_media.specs.Causes.{LeavesOutside, LeavesSource};
ghost use Rattle.nvd_media.specs.Images.{IsEmptySet, bytes_of as bytes_in};
ghost use Rattle.cut_words.specs.WordBytes.{bytes_of};
ghost use Rattle.image_set.specs.Outline.{CopiesFront, CopiesModule, CopiesRow, CopiesSet, HasContents, IsCopyable, IsPart, PatchesSet};
ghost use Rattle.image_set.specs.Patches.{patched_row};
ghost use Rattle.image_set.specs.Save.{HasNone};

use crate::changing::OutlineLeft;
use crate::fault::{CopyFault, CopyStop};
use crate::patch::{NoPatch, Patch};
use crate::pieces::piece_room;
use crate::writing::{spelling_room, write_area, write_ranges};
use nvd_media::{ImageSink, ImageSource, Object};
use nvd_words::Items;
use std::alloc::Global;

/// How many bytes are copied at a time: few calls, and a buffer that fits the caches.
const PIECE: u64 = 256 << 10;

/// The buffers of a copy.
#[derive(Drop)]
struct Buffers {
    /// The bytes of up to 32,768 words.
    spelling: Vec<[u8; 8]>,
    /// A piece of an object: 256 KiB.
    room: Vec<u8>,
}

/// The contents of a module, by their size in bytes.
#[derive(Clone, Copy, Debug)]
struct Contents {
    module: u32,
    bytes: u64,
}

/// States the bound of the bytes' type as a clause. It does nothing at run time.
fn know_bytes(bytes: &[u8])
    ensures { AreBytes bytes.now }
{
    if let Some(byte) = bytes.first() {
        prove!(*byte <= u8::MAX);
    }
}

/// Reads a piece of a module's contents, from `at` on, and changes it. A piece whose new bytes don't
/// depend on the old ones isn't read.
fn read_patched<S: ImageSource, P: Patch>(
    images: &mut S,
    patch: &P,
    module: u32,
    at: u64,
    piece: &mut [u8],
) -> Result<(), CopyStop>
    requires fits { at + length piece.old < 2 ^ 64 }
    requires there { ForSome (S.held images.old) (λ set. at + length piece.old ≤ length (bytes_in set (Object.Contents «module»))) }
    ensures told { OnOk result (ForSome (S.held images.old) (λ set. piece.new ≡ patched_row (P.patched patch.now) «module» at (take (length piece.old) (drop at (bytes_in set (Object.Contents «module»)))))) }
    ensures fit { OnOk result (AreBytes piece.new) }
    ensures source { LeavesSource (S.held images.old) (S.held images.new) (S.faults images.old) (S.faults images.new) result CopyStop.ReadFault }
    ensures apart { result ≢ Err CopyStop.WriteFault }
{
    if !patch.covers(module, at, piece.len() as u64) {
        if images.read(Object::Contents(module), at, piece).is_err() {
            return Err(CopyStop::ReadFault);
        }
    }
    patch.patch(module, at, piece);
    know_bytes(piece);
    Ok(())
}

/// Copies one piece of a module's contents of `bytes` bytes, from `at` on, changes it, and returns
/// the offset after it. The last piece may be shorter.
fn copy_piece<S: ImageSource, K: ImageSink, P: Patch>(
    images: &mut S,
    out: &mut K,
    patch: &P,
    module: u32,
    at: u64,
    bytes: u64,
    room: &mut Vec<u8>,
) -> Result<u64, CopyStop>
    requires room { vec_len room.old ≡ 262144 }
    requires part { IsPart (S.held images.old) (K.made out.old) (Object.Contents «module») at bytes }
    ensures copied { CopiesRow (P.patched patch.now) (S.held images.old) «module» at (min 262144 (bytes - at)) (K.made out.old) (K.made out.new) (K.kept out.old) (K.kept out.new) result }
    ensures next { IfOk result (λ next. next ≡ at + min 262144 (bytes - at)) }
    ensures room { vec_len room.new ≡ 262144 }
    ensures outside { LeavesOutside (S.held images.old) (S.held images.new) (S.faults images.old) (S.faults images.new)
        (K.faults out.old) (K.faults out.new) result CopyStop.ReadFault CopyStop.WriteFault }
{
    let count = (bytes - at).min(PIECE);
    let piece = &mut room[..count as usize];
    read_patched(images, patch, module, at, piece)?;
    out.write(Object::Contents(module), at, piece)?;
    Ok(at + count)
}

/// Copies a module's contents, which the sink doesn't have yet, and changes them.
fn copy_contents<S: ImageSource, K: ImageSink, P: Patch>(
    images: &mut S,
    out: &mut K,
    patch: &P,
    contents: Contents,
    room: &mut Vec<u8>,
) -> Result<(), CopyStop>
    requires room { vec_len room.old ≡ 262144 }
    requires there { ForSome (S.held images.old) (λ set. length (bytes_in set (Object.Contents contents.«module»)) ≡ contents.bytes) }
    requires absent { ForSome (K.made out.old) (λ set. set (Object.Contents contents.«module») ≡ None) }
    ensures copied { CopiesRow (P.patched patch.now) (S.held images.old) contents.«module» 0 contents.bytes (K.made out.old) (K.made out.new) (K.kept out.old) (K.kept out.new) result }
    ensures room { vec_len room.new ≡ 262144 }
    ensures outside { LeavesOutside (S.held images.old) (S.held images.new) (S.faults images.old) (S.faults images.new)
        (K.faults out.old) (K.faults out.new) result CopyStop.ReadFault CopyStop.WriteFault }
{
    let mut at = copy_piece(images, out, patch, contents.module, 0, contents.bytes, room)?;
    while at < contents.bytes {
        at = copy_piece(
            images,
            out,
            patch,
            contents.module,
            at,
            contents.bytes,
            room,
        )?;
    }
    Ok(())
}

/// Writes the objects of a module of which the sink has none: the label area, the contents, which
/// it copies and changes, and the list of bad ranges, in this order.
fn copy_module<S: ImageSource, K: ImageSink, P: Patch>(
    images: &mut S,
    out: &mut K,
    patch: &P,
    contents: Contents,
    area: &Option<Items<u64>>,
    ranges: &Option<Items<u8>>,
    buffers: &mut Buffers,
) -> Result<(), CopyStop>
    requires spelling { 32768 ≤ vec_capacity buffers.old.spelling }
    requires room { vec_len buffers.old.room ≡ 262144 }
    requires there { ForSome (S.held images.old) (λ set. length (bytes_in set (Object.Contents contents.«module»)) ≡ contents.bytes) }
    requires absent { ForSome (K.made out.old) (HasNone contents.«module») }
    ensures copied { CopiesModule (P.patched patch.now) (S.held images.old) contents.«module» (option_map bytes_of area.now) contents.bytes ranges.now (K.made out.old) (K.made out.new) (K.kept out.old) (K.kept out.new) result }
    ensures spelling { 32768 ≤ vec_capacity buffers.new.spelling }
    ensures room { vec_len buffers.new.room ≡ 262144 }
    ensures outside { LeavesOutside (S.held images.old) (S.held images.new) (S.faults images.old) (S.faults images.new)
        (K.faults out.old) (K.faults out.new) result CopyStop.ReadFault CopyStop.WriteFault }
{
    write_area(out, contents.module, area, &mut buffers.spelling)?;
    copy_contents(images, out, patch, contents, &mut buffers.room)?;
    write_ranges(out, contents.module, ranges)?;
    Ok(())
}

/// Writes all objects except the mark.
fn copy_objects<S: ImageSource, K: ImageSink, P: Patch>(
    left: &OutlineLeft,
    images: &mut S,
    out: &mut K,
    patch: &P,
    buffers: &mut Buffers,
) -> Result<(), CopyStop>
    requires spelling { 32768 ≤ vec_capacity buffers.old.spelling }
    requires room { vec_len buffers.old.room ≡ 262144 }
    requires empty { ForSome (K.made out.old) IsEmptySet }
    requires copyable { IsCopyable left.now }
    requires there { ForSome (S.held images.old) (HasContents left.now.sizes) }
    ensures copied { CopiesFront (P.patched patch.now) (S.held images.old) left.now (length left.now.sizes) (K.made out.old) (K.made out.new) (K.kept out.old) (K.kept out.new) result }
    ensures outside { LeavesOutside (S.held images.old) (S.held images.new) (S.faults images.old) (S.faults images.new)
        (K.faults out.old) (K.faults out.new) result CopyStop.ReadFault CopyStop.WriteFault }
{
    out.write(Object::Nfit, 0, left.nfit.as_slice())?;
    let labels = left.labels.as_slice();
    let sizes = left.sizes.as_slice();
    let bad = left.bad.as_slice();
    for module in 0..sizes.len() as u32 {
        let at = module as usize;
        let contents = Contents {
            module,
            bytes: sizes[at],
        };
        copy_module(images, out, patch, contents, &labels[at], &bad[at], buffers)?;
    }
    Ok(())
}

impl OutlineLeft {
    /// Saves the set, with contents that are copied from the source: writes the firmware's table,
    /// then for each module by number its label area, if it has one, its contents, and its list of
    /// bad ranges, if it has one, and then finishes the set.
    ///
    /// If the source reveals its contents, they must have the sizes given here. If `out` reveals
    /// what was written, it must be empty.
    ///
    /// - `copied`: after `Ok` the sink has exactly these objects and the mark. The contents have
    ///   the given sizes; if the source reveals its contents, they are the same. After a fault the
    ///   set isn't finished.
    /// - `outside`: the source holds what it held. `ReadFault` means that the source's count of
    ///   failures rose in this call, `WriteFault` that the sink's did; no count ever falls.
    /// - `untouched`: `OutOfMemory` comes before the first call on source and sink. The call
    ///   allocates two pieces of 256 KiB.
    pub fn save<S: ImageSource, K: ImageSink>(
        &self,
        alloc: Global,
        images: &mut S,
        out: &mut K,
    ) -> Result<(), CopyFault>
        requires empty { ForSome (K.made out.old) IsEmptySet }
        requires copyable { IsCopyable self.now }
        requires there { ForSome (S.held images.old) (HasContents self.now.sizes) }
        ensures copied { CopiesSet (S.held images.old) self.now (K.made out.old) (K.made out.new) (K.kept out.old) (K.kept out.new) result }
        ensures outside { LeavesOutside (S.held images.old) (S.held images.new) (S.faults images.old) (S.faults images.new)
            (K.faults out.old) (K.faults out.new) result CopyFault.ReadFault CopyFault.WriteFault }
        ensures untouched { result ≡ Err CopyFault.OutOfMemory → out.new ≡ out.old }
    {
        self.save_patched(alloc, images, out, &NoPatch)
    }

    /// Saves the set as [`OutlineLeft::save`] does, but changes the contents while it copies them.
    ///
    /// - `copied`: if the source reveals its contents, the saved ones are these with each byte
    ///   changed by the patch.
    pub fn save_patched<S: ImageSource, K: ImageSink, P: Patch>(
        &self,
        alloc: Global,
        images: &mut S,
        out: &mut K,
        patch: &P,
    ) -> Result<(), CopyFault>
        requires empty { ForSome (K.made out.old) IsEmptySet }
        requires copyable { IsCopyable self.now }
        requires there { ForSome (S.held images.old) (HasContents self.now.sizes) }
        ensures copied { PatchesSet (P.patched patch.now) (S.held images.old) self.now (K.made out.old) (K.made out.new) (K.kept out.old) (K.kept out.new) result }
        ensures outside { LeavesOutside (S.held images.old) (S.held images.new) (S.faults images.old) (S.faults images.new)
            (K.faults out.old) (K.faults out.new) result CopyFault.ReadFault CopyFault.WriteFault }
        ensures untouched { result ≡ Err CopyFault.OutOfMemory → out.new ≡ out.old }
    {
        let spelling = spelling_room(alloc)?;
        let room = piece_room(alloc)?;
        let mut buffers = Buffers { spelling, room };
        copy_objects(self, images, out, patch, &mut buffers)?;
        out.finish()?;
        Ok(())
    }
}
