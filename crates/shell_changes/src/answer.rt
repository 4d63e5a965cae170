//! What a command answers, and the image set that it saves.
ghost use Rattle.std.specs.Prelude.{◌≡◌, ◌≢◌, ◌≤◌, ℕ, List, Some, None, IsTrue, IfOk, OnOk, Ok, Err, is_ok};
ghost use Rattle.std.specs.Option.{ForSome};
ghost use Rattle.nvd_media.specs.Causes.{LeavesOutside, Rose};
ghost use Rattle.nvd_media.specs.Images.{Becomes, IsEmptySet, IsUnfinished, Images};
ghost use Rattle.image_set.specs.Changed.{IsSavable, objects_in};
ghost use Rattle.image_set.specs.Outline.{HasContents, IsCopyable};
ghost use Rattle.shell_reports.specs.Saved.{Saves, outcome_of};
ghost use Rattle.shell_changes.specs.Answers.{outcome_with};
ghost use Rattle.shell_changes.specs.Saved.{AreObjects, AreWholeSizes, CanBeSaved, HasItsContents, Stores, is_copied};

use image_set::{CopyFault, OutlineLeft, SaveFault, SetLeft};
use namespace_bytes::SetPatch;
use nvd_media::{ImageSink, ImageSource};
use shell_reports::{Report, RunStop};
use std::alloc::{AllocError, Global};
use std::marker::Model;

/// An image set as it is left.
#[derive(Drop)]
pub enum Left {
    /// All of it is in memory.
    Whole(SetLeft),
    /// Its contents are copied from the source as it is saved.
    Copied(OutlineLeft),
    /// Its contents are copied from the source as it is saved, with the new bytes of namespaces.
    Patched(OutlineLeft, SetPatch),
}

/// Saves a set that is in memory.
fn save_whole<K: ImageSink>(alloc: Global, set: &SetLeft, out: &mut K) -> Result<(), CopyFault>
    requires empty { ForSome (K.made out.old) IsEmptySet }
    requires savable { IsSavable set.now }
    ensures saved { OnOk result (Saves (Some (objects_in set.now)) (K.made out.old) (K.made out.new) × Stores (Some (objects_in set.now)) (K.kept out.old) (K.kept out.new)) }
    ensures no_read { result ≢ Err CopyFault.ReadFault }
    ensures unwritten { result ≡ Err CopyFault.WriteFault → Becomes (K.made out.old) (K.made out.new) IsUnfinished }
    ensures memory { result ≡ Err CopyFault.OutOfMemory → K.made out.new ≡ K.made out.old }
    ensures later { K.faults out.old ≤ K.faults out.new }
    ensures written { result ≡ Err CopyFault.WriteFault → Rose (K.faults out.old) (K.faults out.new) }
{
    match set.save(alloc, out) {
        Ok(()) => Ok(()),
        Err(SaveFault::WriteFault) => Err(CopyFault::WriteFault),
        Err(SaveFault::OutOfMemory) => Err(CopyFault::OutOfMemory),
    }
}

/// Saves a set with the contents that the source has.
fn save_copied<S: ImageSource, K: ImageSink>(
    alloc: Global,
    set: &OutlineLeft,
    images: &mut S,
    out: &mut K,
) -> Result<(), CopyFault>
    requires empty { ForSome (K.made out.old) IsEmptySet }
    requires copyable { IsCopyable set.now }
    requires there { ForSome (S.held images.old) (HasContents set.now.sizes) }
    ensures saved { OnOk result ((objects : Images) × AreObjects (S.held images.old) (Left.Copied set.now) objects × Saves (Some objects) (K.made out.old) (K.made out.new) × Stores (Some objects) (K.kept out.old) (K.kept out.new)) }
    ensures unread { result ≡ Err CopyFault.ReadFault → Becomes (K.made out.old) (K.made out.new) IsUnfinished }
    ensures unwritten { result ≡ Err CopyFault.WriteFault → Becomes (K.made out.old) (K.made out.new) IsUnfinished }
    ensures memory { result ≡ Err CopyFault.OutOfMemory → K.made out.new ≡ K.made out.old }
    ensures outside { LeavesOutside (S.held images.old) (S.held images.new) (S.faults images.old) (S.faults images.new) (K.faults out.old) (K.faults out.new) result CopyFault.ReadFault CopyFault.WriteFault }
{
    set.save(alloc, images, out)
}

/// Saves a set with the contents that the source has, and the new bytes of namespaces.
fn save_patched<S: ImageSource, K: ImageSink>(
    alloc: Global,
    set: &OutlineLeft,
    patch: &SetPatch,
    images: &mut S,
    out: &mut K,
) -> Result<(), CopyFault>
    requires empty { ForSome (K.made out.old) IsEmptySet }
    requires copyable { IsCopyable set.now }
    requires whole { AreWholeSizes set.now.sizes }
    requires there { ForSome (S.held images.old) (HasContents set.now.sizes) }
    ensures saved { OnOk result ((objects : Images) × AreObjects (S.held images.old) (Left.Patched set.now patch.now) objects × Saves (Some objects) (K.made out.old) (K.made out.new) × Stores (Some objects) (K.kept out.old) (K.kept out.new)) }
    ensures unread { result ≡ Err CopyFault.ReadFault → Becomes (K.made out.old) (K.made out.new) IsUnfinished }
    ensures unwritten { result ≡ Err CopyFault.WriteFault → Becomes (K.made out.old) (K.made out.new) IsUnfinished }
    ensures memory { result ≡ Err CopyFault.OutOfMemory → K.made out.new ≡ K.made out.old }
    ensures outside { LeavesOutside (S.held images.old) (S.held images.new) (S.faults images.old) (S.faults images.new) (K.faults out.old) (K.faults out.new) result CopyFault.ReadFault CopyFault.WriteFault }
{
    set.save_patched(alloc, images, out, patch)
}

/// An image set that is to be saved.
#[derive(Drop)]
pub struct SavedSet {
    left: Left,
}

impl Model for SavedSet {
    ghost use Rattle.shell_changes.specs.declared.answer.Left.{Left};

    ghost Value = { Left };

    ghost use Rattle.shell_changes.specs.Saved.{CanBeSaved};

    ghost view = { λ set. set.left };

    ghost invariant = { λ set. CanBeSaved set.left };
}

impl SavedSet {
    /// The set that is left.
    pub fn new(left: Left) -> SavedSet
        requires { CanBeSaved left }
        ensures { result ≡ left }
    {
        SavedSet { left }
    }

    /// Saves it. Nothing was written to `out` before, if it tells. Contents that aren't in memory are those of the source,
    /// with the new bytes of namespaces if it has some, and have the sizes that are stated.
    ///
    /// - `saved`: after `Ok` the sink has exactly the set's objects and the mark, as far as the source tells its contents. So has
    ///   one that tells that everything was stored.
    /// - `unread`, `unwritten`: after a fault of the source or the sink the set isn't finished. The source is read only
    ///   for contents that are copied.
    pub fn save<S: ImageSource, K: ImageSink>(
        &self,
        alloc: Global,
        images: &mut S,
        out: &mut K,
    ) -> Result<(), CopyFault>
        requires empty { ForSome (K.made out.old) IsEmptySet }
        requires there { ForSome (S.held images.old) (HasItsContents self.now) }
        ensures saved { OnOk result ((objects : Images) × AreObjects (S.held images.old) self.now objects × Saves (Some objects) (K.made out.old) (K.made out.new) × Stores (Some objects) (K.kept out.old) (K.kept out.new)) }
        ensures unread { result ≡ Err CopyFault.ReadFault → IsTrue (is_copied self.now) × Becomes (K.made out.old) (K.made out.new) IsUnfinished }
        ensures unwritten { result ≡ Err CopyFault.WriteFault → Becomes (K.made out.old) (K.made out.new) IsUnfinished }
        ensures memory { result ≡ Err CopyFault.OutOfMemory → K.made out.new ≡ K.made out.old }
        ensures outside { LeavesOutside (S.held images.old) (S.held images.new) (S.faults images.old) (S.faults images.new) (K.faults out.old) (K.faults out.new) result CopyFault.ReadFault CopyFault.WriteFault }
    {
        match &self.left {
            Left::Whole(set) => save_whole(alloc, set, out),
            Left::Copied(set) => save_copied(alloc, set, images, out),
            Left::Patched(set, patch) => save_patched(alloc, set, patch, images, out),
        }
    }
}

/// What a command comes to: how it ends and the bytes of its text, and the image set that it saves, if it saves one.
#[derive(Drop)]
pub struct Answer {
    pub report: Report,
    pub saved: Option<SavedSet>,
}

/// Returns an answer, or the stop if memory ran out.
pub fn in_memory(answer: Result<Answer, AllocError>) -> Result<Answer, RunStop>
    ensures same { IfOk result (λ x. answer ≡ Ok x) }
    ensures memory { result ≢ Err RunStop.ReadFault }
    ensures made { is_ok result ≡ is_ok answer }
{
    match answer {
        Ok(answer) => Ok(answer),
        Err(_) => Err(RunStop::OutOfMemory),
    }
}

/// The answer of a command that saves nothing.
pub fn without_set(report: Report) -> Answer
    ensures same { (contents : List (List ℕ)) → outcome_with result contents ≡ outcome_of report }
    ensures saved { result.saved ≡ None }
    ensures told { result.report ≡ report }
{
    Answer {
        report,
        saved: None,
    }
}
