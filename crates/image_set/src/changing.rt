//! Changing label areas of a loaded set, and saving the set after a crash.
ghost use Rattle.std.specs.Prelude.{◌≡◌, ◌<◌, ◌≤◌, ℕ, List, Some, None, IfOk, MatchResult, OnOk, Err, length, slice_index_or, slice_set};
ghost use Rattle.std.specs.Option.{ForSome, option_map};
ghost use Rattle.nvd_media.specs.Causes.{Rose};
ghost use Rattle.nvd_media.specs.Images.{Becomes, Keeps, IsEmptySet, IsSameSet, IsUnfinished};
ghost use Rattle.image_set.specs.Changed.{IsSavable, objects_in, with_area};
ghost use Rattle.image_set.specs.Load.{area_of, bytes_kept};
ghost use Rattle.image_set.specs.Outline.{IsCopyable, IsOutlineRest, IsOutlined, LeavesAreas, LeavesOutline, image_set_with};
ghost use Rattle.image_set.specs.Sound.{IsArea};

use crate::fault::SaveFault;
use crate::outline::Outline;
use crate::saving::save;
use cut_words::CutWords;
use nvd_media::{Chooser, ImageSink};
use nvd_words::Items;
use power_cut::{Images, leave_all};
use std::alloc::{AllocError, Global};

/// An image set as it is saved.
#[derive(Debug, Drop)]
pub struct SetLeft {
    /// The bytes of the firmware's table.
    pub nfit: Items<u8>,
    /// The words of the modules' label areas and contents.
    pub images: Images,
    /// The bytes of the modules' lists of bad ranges.
    pub bad: Items<Option<Items<u8>>>,
}

/// The parts of an outline besides its decoded table and its label areas.
#[derive(Debug, Drop)]
pub struct OutlineRest {
    /// The bytes of the firmware's table.
    pub nfit_bytes: Items<u8>,
    /// The size of each module's contents, in bytes.
    pub sizes: Items<u64>,
    /// The bytes of the modules' lists of bad ranges.
    pub bad: Items<Option<Items<u8>>>,
}

/// An image set as it is saved, except its contents, which are copied from the source.
#[derive(Debug, Drop)]
pub struct OutlineLeft {
    /// The bytes of the firmware's table.
    pub nfit: Items<u8>,
    /// The words of the label area of each module that has one.
    pub labels: Items<Option<Items<u64>>>,
    /// The size of each module's contents, in bytes.
    pub sizes: Items<u64>,
    /// The bytes of the modules' lists of bad ranges.
    pub bad: Items<Option<Items<u8>>>,
}

/// Takes a module's label area out, and returns it besides the others.
fn without_area(
    labels: Items<Option<CutWords>>,
    module: u32,
) -> (Items<Option<CutWords>>, Option<CutWords>)
    ensures rest { result.0 ≡ slice_set labels «module» None }
    ensures area { result.1 ≡ slice_index_or labels «module» None }
{
    let mut labels = labels.into_vec();
    let area = match labels.get_mut(module as usize) {
        Some(area) => area.take(),
        None => None,
    };
    (Items::from_vec(labels), area)
}

/// Puts these words back as a module's label area.
fn with_area(
    labels: Items<Option<CutWords>>,
    module: u32,
    area: CutWords,
) -> Items<Option<CutWords>>
    requires { «module» < length labels }
    ensures { result ≡ slice_set labels «module» (Some area) }
{
    let mut labels = labels.into_vec();
    labels[module as usize] = Some(area);
    Items::from_vec(labels)
}

impl Outline {
    /// Takes a module's label area out: `None` if the table doesn't name the module, or the module has
    /// no label area.
    ///
    /// - `area`, `settled`: its bytes are the area's; it has a label area's size, its words are of 64 bits,
    ///   and none of them is pending.
    /// - `sound`, `others`: the rest of the set is sound, and with a label area put back it is the set
    ///   with that label area in place of the one that was taken, whatever the contents are.
    pub fn take_area(self, module: u32) -> (Outline, Option<CutWords>)
        requires { IsOutlined self }
        ensures area { (contents : List (List ℕ)) → option_map bytes_kept result.1 ≡ area_of (image_set_with self contents) «module» }
        ensures settled { IsArea result.1 }
        ensures sound { IsOutlined result.0 }
        ensures others { (contents : List (List ℕ)) (bytes : List ℕ) → with_area (image_set_with result.0 contents) «module» bytes
            ≡ with_area (image_set_with self contents) «module» bytes }
        ensures count { length result.0.labels ≡ length self.labels }
        ensures sizes { result.0.sizes ≡ self.sizes }
    {
        let (labels, area) = without_area(self.labels, module);
        let outline = Outline {
            nfit: self.nfit,
            nfit_bytes: self.nfit_bytes,
            labels,
            sizes: self.sizes,
            bad: self.bad,
        };
        (outline, area)
    }

    /// Returns the set after a crash, with these words as the label area of a module that the table
    /// names. If none of the words is pending, they are unchanged.
    ///
    /// `left`: the chooser is asked only for the words of this area, since no other word is
    /// pending; all other objects are unchanged. The call fails only if memory runs out.
    pub fn leave_area<C: Chooser>(
        self,
        alloc: Global,
        module: u32,
        area: CutWords,
        choose: &mut C,
    ) -> Result<OutlineLeft, AllocError>
        requires sound { IsOutlined self }
        requires named { «module» < length self.labels }
        ensures left { IfOk result (LeavesOutline C.picks self «module» area choose.old choose.new) }
        ensures copyable { IfOk result IsCopyable }
        ensures sizes { IfOk result (λ left. left.sizes ≡ self.sizes) }
    {
        let labels = with_area(self.labels, module, area);
        let images = leave_all(alloc, labels, Items::new(alloc), Vec::new(alloc), choose)?;
        Ok(OutlineLeft {
            nfit: self.nfit_bytes,
            labels: images.labels,
            sizes: self.sizes,
            bad: self.bad,
        })
    }
}

impl OutlineRest {
    /// Returns the set after a crash, with these label areas, by module number. Words that aren't
    /// pending are unchanged.
    ///
    /// `left`: the chooser is asked for one area after another, by ascending module number; all
    /// other objects are unchanged. The call fails only if memory runs out.
    pub fn leave_areas<C: Chooser>(
        self,
        alloc: Global,
        labels: Items<Option<CutWords>>,
        choose: &mut C,
    ) -> Result<OutlineLeft, AllocError>
        requires rest { IsOutlineRest self }
        requires count { length labels ≡ length self.sizes }
        ensures left { IfOk result (LeavesAreas C.picks self labels choose.old choose.new) }
        ensures copyable { IfOk result IsCopyable }
    {
        let images = leave_all(alloc, labels, Items::new(alloc), Vec::new(alloc), choose)?;
        Ok(OutlineLeft {
            nfit: self.nfit_bytes,
            labels: images.labels,
            sizes: self.sizes,
            bad: self.bad,
        })
    }
}

impl SetLeft {
    /// Saves the set, as `save` does.
    pub fn save<K: ImageSink>(&self, alloc: Global, out: &mut K) -> Result<(), SaveFault>
        requires empty { ForSome (K.made out.old) IsEmptySet }
        requires savable { IsSavable self.now }
        ensures told { Becomes (K.made out.old) (K.made out.new) (λ set now. MatchResult result
            (λ _. IsSameSet now (objects_in self.now)) (λ _. IsUnfinished set now)) }
        ensures kept { OnOk result (Keeps (K.kept out.old) (K.kept out.new) (λ set now. IsEmptySet set
            → IsSameSet now (objects_in self.now))) }
        ensures failed { result ≡ Err SaveFault.WriteFault → Rose (K.faults out.old) (K.faults out.new) }
        ensures later { K.faults out.old ≤ K.faults out.new }
        ensures untouched { result ≡ Err SaveFault.OutOfMemory → out.new ≡ out.old }
    {
        save(
            alloc,
            self.nfit.as_slice(),
            &self.images,
            self.bad.as_slice(),
            out,
        )
    }
}
