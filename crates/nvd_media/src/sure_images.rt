ghost use Rattle.std.specs.Prelude.{◌≡◌, None, Some, true};
ghost use Rattle.std.specs.Option.{option_map};
ghost use Rattle.nvd_media.specs.Images.{Keeps, IsSameSet, with_more};
ghost use Rattle.nvd_media.specs.Memory.{lookup, while_whole};

use crate::mem_images::{Stored, append, bytes_in, copy_from, find};
use crate::object::Object;
use crate::traits::{Failed, ImageSink, ImageSource};
use std::alloc::Global;

/// An image set in memory whose calls never fail: its count of failures is always 0.
///
/// As a source it reveals what it holds. As a sink it reveals nothing in `made`: a write may find
/// no memory, but it can't report that as a failure. As long as [`SureImages::is_whole`] returns
/// true, everything was stored, and `kept` reveals it.
#[derive(Drop)]
pub struct SureImages {
    alloc: Global,
    objects: Vec<Stored>,
    whole: bool,
}

impl SureImages {
    /// Makes an image set of these objects.
    pub fn new(alloc: Global, objects: Vec<Stored>) -> SureImages
        ensures objects { result.objects ≡ objects }
        ensures whole { result.whole ≡ true }
    {
        SureImages {
            alloc,
            objects,
            whole: true,
        }
    }

    /// Returns the bytes of an object, `None` if it is absent.
    pub fn bytes(&self, object: Object) -> Option<&[u8]>
        ensures { option_map (λ bytes. bytes.now) result ≡ lookup self.now.objects.items object }
    {
        find(&self.objects, object)
    }

    /// Returns whether everything written was stored.
    pub fn is_whole(&self) -> bool
        ensures { result ≡ self.now.whole }
    {
        self.whole
    }

    /// Appends bytes to an object. If memory runs out, the set isn't whole from then on.
    fn keep(&mut self, object: Object, bytes: &[u8])
        ensures kept { Keeps (while_whole self.old.whole (lookup self.old.objects.items)) (while_whole self.new.whole (lookup self.new.objects.items)) (λ set now. IsSameSet now (with_more set object bytes.now)) }
    {
        if append(self.alloc, &mut self.objects, object, bytes).is_err() {
            self.whole = false;
        }
    }
}

impl ImageSource for SureImages {
    ghost held = { λ images. Some (lookup images.objects.items) };

    ghost faults = { λ _. 0 };

    fn length(&mut self, object: Object) -> Result<Option<u64>, Failed> {
        Ok(match find(&self.objects, object) {
            Some(bytes) => Some(bytes.len() as u64),
            None => None,
        })
    }

    fn read(&mut self, object: Object, at: u64, into: &mut [u8]) -> Result<(), Failed> {
        copy_from(bytes_in(&self.objects, object), at as usize, into);
        Ok(())
    }
}

impl ImageSink for SureImages {
    ghost made = { λ _. None };

    ghost kept = { λ images. while_whole images.whole (lookup images.objects.items) };

    ghost faults = { λ _. 0 };

    fn write(&mut self, object: Object, _at: u64, bytes: &[u8]) -> Result<(), Failed> {
        self.keep(object, bytes);
        Ok(())
    }

    fn finish(&mut self) -> Result<(), Failed> {
        self.keep(Object::Mark, &[]);
        Ok(())
    }
}
