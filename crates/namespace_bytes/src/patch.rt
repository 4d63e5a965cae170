//! The bytes of namespaces are changed in the contents of modules while these are copied.
ghost use Rattle.std.specs.Prelude.{◌≡◌, ℕ, [], ◌∷◌, ◌++◌, ◌+◌, ◌*◌, ◌%◌, ◌^◌, ◌<◌, ◌≤◌, IfOk, IsTrue, List, Some, length, map, take, drop};
ghost use Rattle.std.specs.List.{All};
ghost use Rattle.interleave.specs.Places.{unit_of};
ghost use Rattle.interleave.specs.Sound.{span_of};
ghost use Rattle.power_cut.specs.Namespace.{ReachEnds};
ghost use Rattle.sector_namespaces.specs.View.{rows_of};
ghost use Rattle.image_set.specs.Patches.{IsCovered, patched_row};
ghost use Rattle.namespace_bytes.specs.Patching.{AreBytesAt, ArePatched, AreWhole, BytePatch, IsBytePatch, IsFor, IsLaidPart, IsPart, all_patched, byte_patched, patch_in, patch_on, start_in};

use crate::new_bytes::NewBytes;
use image_set::Patch;
use interleave::InterleaveSet;
use nvd_words::Items;
use std::alloc::{AllocError, Global};
use std::marker::Model;

/// The new bytes of a namespace, and where it lies.
#[derive(Drop)]
pub struct NamespacePatch {
    /// The place of its interleave set in a list of sets.
    pub region: u32,
    /// The namespace's address in each mapping, in bytes from the mapping's start.
    pub offset: u64,
    /// Its size in each mapping, in bytes.
    pub raw: u64,
    pub bytes: NewBytes,
}

impl NamespacePatch {
    /// Learns from a set that the namespace lies in it.
    fn lies_in(&self, set: &InterleaveSet)
        requires from { self.now.offset % unit_of set.now ≡ 0 }
        requires to { self.now.raw % unit_of set.now ≡ 0 }
        requires inside { self.now.offset + self.now.raw ≤ span_of set.now }
        ensures { IsBytePatch (patch_on set.now self.now) }
    {
        let _unit = set.unit();
        let _span = set.span();
    }

    /// Returns the address of the namespace's first byte in a module, if it lies there.
    fn start(&self, set: &InterleaveSet, module: u32) -> Option<u128>
        ensures { result ≡ start_in (patch_on set.now self.now) «module» }
    {
        let position = set.position(module)?;
        let start = set.start(u32::from(position));
        Some(u128::from(start) + u128::from(self.offset))
    }

    /// Returns the number in the namespace of the byte at an address of its extent in a module, and how many bytes from there on,
    /// at most `limit`, lie one behind the other in both: up to the end of the interleave line or of the extent.
    fn line(&self, set: &InterleaveSet, module: u32, start: u128, at: u64, limit: u64) -> (u64, u64)
        requires laid { IsBytePatch (patch_on set.now self.now) }
        requires there { start_in (patch_on set.now self.now) «module» ≡ Some start }
        requires from { start ≤ at }
        requires to { at < start + self.now.raw }
        requires some { 0 < limit }
        ensures some { 0 < result.1 }
        ensures few { result.1 ≤ limit }
        ensures inside { result.0 + result.1 ≤ length set.now * self.now.raw }
        ensures fits { result.0 + result.1 < 2 ^ 64 }
        ensures there { AreBytesAt (patch_on set.now self.now) «module» at result.0 result.1 }
    {
        let left = (start + u128::from(self.raw) - u128::from(at)).min(u128::from(limit)) as u64;
        let byte = set.offset_of(module, at);
        let size = set.run_length(byte).min(left);
        (byte - u64::from(set.ways()) * self.offset, size)
    }

    /// Changes the namespace's bytes from an address of a module on in the piece that begins there, up to the end of the
    /// interleave line, or passes over those that aren't the namespace's. Returns how many bytes are done.
    fn put_line(
        &self,
        set: &InterleaveSet,
        module: u32,
        start: u128,
        at: u64,
        piece: &mut [u8],
    ) -> usize
        requires laid { IsBytePatch (patch_on set.now self.now) }
        requires long { IsFor self.now.bytes (length set.now * self.now.raw) }
        requires there { start_in (patch_on set.now self.now) «module» ≡ Some start }
        requires some { 0 < length piece.old }
        requires fits { at + length piece.old < 2 ^ 64 }
        ensures some { 0 < result }
        ensures fits { result ≤ length piece.old }
        ensures put { piece.new ≡ take result (patched_row (byte_patched (patch_on set.now self.now)) «module» at piece.old) ++ drop result piece.old }
    {
        let address = u128::from(at);
        if address < start {
            return (start - address).min(piece.len() as u128) as usize;
        }
        if start + u128::from(self.raw) <= address {
            return piece.len();
        }
        let (from, size) = self.line(set, module, start, at, piece.len() as u64);
        self.bytes.put(from, &mut piece[..size as usize]);
        size as usize
    }

    /// Changes the namespace's bytes in a piece of a module's contents.
    fn put(&self, set: &InterleaveSet, module: u32, at: u64, piece: &mut [u8])
        requires laid { IsBytePatch (patch_on set.now self.now) }
        requires long { IsFor self.now.bytes (length set.now * self.now.raw) }
        requires fits { at + length piece.old < 2 ^ 64 }
        ensures { piece.new ≡ patched_row (byte_patched (patch_on set.now self.now)) «module» at piece.old }
    {
        if let Some(start) = self.start(set, module) {
            let mut done = 0;
            while done < piece.len() {
                done += self.put_line(set, module, start, at + done as u64, &mut piece[done..]);
            }
        }
    }

    /// Returns whether the new values of these bytes, all in the namespace's extent, don't depend on the old ones.
    fn covers_lines(
        &self,
        set: &InterleaveSet,
        module: u32,
        start: u128,
        at: u64,
        bytes: u64,
    ) -> bool
        requires laid { IsBytePatch (patch_on set.now self.now) }
        requires there { start_in (patch_on set.now self.now) «module» ≡ Some start }
        requires from { start ≤ at }
        requires to { at + bytes ≤ start + self.now.raw }
        requires fits { at + bytes < 2 ^ 64 }
        ensures { IsTrue result → IsCovered (byte_patched (patch_on set.now self.now)) «module» at bytes }
    {
        let mut done = 0;
        while done < bytes {
            let (from, size) = self.line(set, module, start, at + done, bytes - done);
            if !self.bytes.covers(from, size) {
                return false;
            }
            done += size;
        }
        true
    }

    /// Returns whether the new values of these bytes don't depend on the old ones.
    fn covers(&self, set: &InterleaveSet, module: u32, at: u64, bytes: u64) -> bool
        requires laid { IsBytePatch (patch_on set.now self.now) }
        requires fits { at + bytes < 2 ^ 64 }
        ensures { IsTrue result → IsCovered (byte_patched (patch_on set.now self.now)) «module» at bytes }
    {
        match self.start(set, module) {
            Some(start) => {
                start <= u128::from(at)
                    && u128::from(at + bytes) <= start + u128::from(self.raw)
                    && self.covers_lines(set, module, start, at, bytes)
            }
            None => false,
        }
    }
}

/// Learns from their sets that namespaces lie in them.
fn lie_in(sets: &[InterleaveSet], parts: &[NamespacePatch])
    requires { All (IsPart sets.now) parts.now }
    ensures { All (IsLaidPart sets.now) parts.now }
{
    for part in parts {
        part.lies_in(&sets[part.region as usize]);
    }
}

/// Puts the new bytes of namespaces into a piece of a module's contents, one namespace after another.
fn put_parts(
    sets: &[InterleaveSet],
    parts: &[NamespacePatch],
    module: u32,
    at: u64,
    piece: &mut [u8],
)
    requires laid { All (IsLaidPart sets.now) parts.now }
    requires fits { at + length piece.old < 2 ^ 64 }
    ensures { piece.new ≡ patched_row (all_patched (map (patch_in sets.now) parts.now)) «module» at piece.old }
{
    for part in parts {
        part.put(&sets[part.region as usize], module, at, piece);
    }
}

/// Returns whether the new values of these bytes don't depend on the old ones, since those of one of the namespaces don't.
fn any_covers(
    sets: &[InterleaveSet],
    parts: &[NamespacePatch],
    module: u32,
    at: u64,
    bytes: u64,
) -> bool
    requires laid { All (IsLaidPart sets.now) parts.now }
    requires fits { at + bytes < 2 ^ 64 }
    ensures { IsTrue result → IsCovered (all_patched (map (patch_in sets.now) parts.now)) «module» at bytes }
{
    for part in parts {
        if part.covers(&sets[part.region as usize], module, at, bytes) {
            return true;
        }
    }
    false
}

/// The new bytes of namespaces, which are put into the contents of their modules while these are copied, one namespace after
/// another. Neither the contents nor a second copy of the bytes is in memory.
#[derive(Drop)]
pub struct SetPatch {
    sets: Items<InterleaveSet>,
    parts: Items<NamespacePatch>,
}

impl Model for SetPatch {
    ghost use Rattle.std.specs.Prelude.{List, map};
    ghost use Rattle.std.specs.List.{All};
    ghost use Rattle.namespace_bytes.specs.Patching.{BytePatch, IsLaidPart, patch_in};

    ghost Value = { List BytePatch };

    ghost view = { λ patch. map (patch_in patch.sets) patch.parts };

    ghost invariant = { λ patch. All (IsLaidPart patch.sets) patch.parts };
}

impl SetPatch {
    /// Takes the new bytes of namespaces. Each names its set by its place in the list.
    ///
    /// Its offset and its size must be multiples of the set's unit, and it must end inside the mappings. If its bytes are raw, they
    /// must be as many as it has.
    ///
    /// `patched`: if contents reach the end of each mapping of a namespace's set, its bytes alone give it its new bytes, and change
    /// nothing beside it.
    pub fn new(sets: Items<InterleaveSet>, parts: Items<NamespacePatch>) -> SetPatch
        requires { All (IsPart sets) parts }
        ensures made { result ≡ map (patch_in sets) parts }
        ensures patched { All (λ (p : BytePatch). (contents : List (List ℕ)) → AreWhole contents → ReachEnds p.set (rows_of contents) → ArePatched p contents) result }
    {
        lie_in(sets.as_slice(), parts.as_slice());
        SetPatch { sets, parts }
    }

    /// Takes the new bytes of the namespace that has `raw` bytes from the relative address `offset` on in each mapping of the set.
    ///
    /// `offset` and `raw` must be multiples of the set's unit, and the namespace must end inside the mappings. If the bytes are raw,
    /// they must be as many as it has. It fails only if memory runs out.
    ///
    /// `patched`: in contents that reach the end of each mapping, the namespace then has its new bytes, and nothing beside it has
    /// changed.
    pub fn one(
        alloc: Global,
        set: InterleaveSet,
        offset: u64,
        raw: u64,
        bytes: NewBytes,
    ) -> Result<SetPatch, AllocError>
        requires from { offset % unit_of set ≡ 0 }
        requires to { raw % unit_of set ≡ 0 }
        requires inside { offset + raw ≤ span_of set }
        requires long { IsFor bytes (length set * raw) }
        ensures made { IfOk result (λ patch. patch ≡ record { set = set; offset = offset; raw = raw; bytes = bytes } ∷ []) }
        ensures patched { IfOk result (λ patch. (contents : List (List ℕ)) → AreWhole contents → ReachEnds set (rows_of contents) → ArePatched (record { set = set; offset = offset; raw = raw; bytes = bytes }) contents) }
    {
        let mut sets = Items::new(alloc);
        sets.push(set)?;
        let mut parts = Items::new(alloc);
        parts.push(NamespacePatch {
            region: 0,
            offset,
            raw,
            bytes,
        })?;
        Ok(SetPatch::new(sets, parts))
    }
}

impl Patch for SetPatch {
    ghost patched = { all_patched };

    fn covers(&self, module: u32, at: u64, bytes: u64) -> bool {
        any_covers(
            self.sets.as_slice(),
            self.parts.as_slice(),
            module,
            at,
            bytes,
        )
    }

    fn patch(&self, module: u32, at: u64, piece: &mut [u8]) {
        put_parts(
            self.sets.as_slice(),
            self.parts.as_slice(),
            module,
            at,
            piece,
        );
    }
}
