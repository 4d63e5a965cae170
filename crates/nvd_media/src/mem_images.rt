ghost use Rattle.std.specs.Prelude.{◌≡◌, ◌+◌, ◌≤◌, Some, None, OnOk, OnErr, length, take, drop, position};
ghost use Rattle.std.specs.Option.{option_map};
ghost use Rattle.nvd_media.specs.Images.{IsSameSet, is_object, bytes_of, with_more};
ghost use Rattle.nvd_media.specs.Memory.{lookup};

use crate::failures::Failures;
use crate::object::Object;
use crate::traits::{Failed, ImageSink, ImageSource};
use std::alloc::{AllocError, Global};

/// An object in memory.
#[derive(Drop)]
pub struct Stored {
    pub object: Object,
    pub bytes: Vec<u8>,
}

/// An image set in memory, to read and to write, with the numbers of the calls that fail.
///
/// It reveals what it holds: of each name, the first object.
#[derive(Drop)]
pub struct MemImages {
    alloc: Global,
    objects: Vec<Stored>,
    failures: Failures,
}

impl MemImages {
    /// Makes an image set of these objects. The calls with these numbers fail, counted from 0 over
    /// calls of every kind.
    pub fn new(alloc: Global, objects: Vec<Stored>, failing: Vec<u64>) -> MemImages
        ensures objects { result.objects ≡ objects }
        ensures faults { result.failures.faults ≡ 0 }
    {
        MemImages {
            alloc,
            objects,
            failures: Failures::new(failing),
        }
    }

    /// Returns the bytes of an object, `None` if it is absent.
    pub fn bytes(&self, object: Object) -> Option<&[u8]>
        ensures { option_map (λ bytes. bytes.now) result ≡ lookup self.now.objects.items object }
    {
        find(&self.objects, object)
    }
}

/// Returns the bytes of an object in a list, `None` if it is absent.
pub(crate) fn find(objects: &[Stored], object: Object) -> Option<&[u8]>
    ensures { option_map (λ bytes. bytes.now) result ≡ lookup objects.now object }
{
    for stored in objects {
        if stored.object.is(object) {
            return Some(&stored.bytes);
        }
    }
    None
}

/// Returns the bytes of an object in a list, no bytes if it is absent.
pub(crate) fn bytes_in(objects: &[Stored], object: Object) -> &[u8]
    ensures { result.now ≡ bytes_of (lookup objects.now) object }
{
    match find(objects, object) {
        Some(bytes) => bytes,
        None => &[],
    }
}

/// Returns the place of an object in a list.
fn place_of(objects: &[Stored], object: Object) -> Option<usize>
    ensures { result ≡ position (λ stored. is_object stored.object object) objects.now }
{
    objects.iter().position(|stored| stored.object.is(object))
}

/// Fills the buffer with the bytes from `at` on.
pub(crate) fn copy_from(bytes: &[u8], at: usize, into: &mut [u8])
    requires { at + length into.old ≤ length bytes.now }
    ensures { into.new ≡ take (length into.old) (drop at bytes.now) }
{
    into.copy_from_slice(&bytes[at..at + into.len()]);
}

/// Adds an object at the end of a list that doesn't have it.
fn add(
    alloc: Global,
    objects: &mut Vec<Stored>,
    object: Object,
    bytes: &[u8],
) -> Result<(), AllocError>
    requires { position (λ stored. is_object stored.object object) objects.old.items ≡ None }
    ensures more { OnOk result (IsSameSet (lookup objects.new.items) (with_more (lookup objects.old.items) object bytes.now)) }
    ensures same { OnErr result (IsSameSet (lookup objects.new.items) (lookup objects.old.items)) }
{
    let bytes = Vec::from_slice(alloc, bytes)?;
    objects.push(Stored { object, bytes })?;
    Ok(())
}

/// Appends bytes to the object at a place of the list.
fn grow(
    objects: &mut Vec<Stored>,
    place: usize,
    object: Object,
    bytes: &[u8],
) -> Result<(), AllocError>
    requires { position (λ stored. is_object stored.object object) objects.old.items ≡ Some place }
    ensures more { OnOk result (IsSameSet (lookup objects.new.items) (with_more (lookup objects.old.items) object bytes.now)) }
    ensures same { OnErr result (IsSameSet (lookup objects.new.items) (lookup objects.old.items)) }
{
    objects[place].bytes.extend_from_slice(bytes)
}

/// Appends bytes to an object, and makes the object if it is absent.
pub(crate) fn append(
    alloc: Global,
    objects: &mut Vec<Stored>,
    object: Object,
    bytes: &[u8],
) -> Result<(), AllocError>
    ensures more { OnOk result (IsSameSet (lookup objects.new.items) (with_more (lookup objects.old.items) object bytes.now)) }
    ensures same { OnErr result (IsSameSet (lookup objects.new.items) (lookup objects.old.items)) }
{
    match place_of(objects, object) {
        Some(place) => grow(objects, place, object, bytes),
        None => add(alloc, objects, object, bytes),
    }
}

impl ImageSource for MemImages {
    ghost held = { λ images. Some (lookup images.objects.items) };

    ghost faults = { λ images. images.failures.faults };

    fn length(&mut self, object: Object) -> Result<Option<u64>, Failed> {
        self.failures.next_call()?;
        Ok(match find(&self.objects, object) {
            Some(bytes) => Some(bytes.len() as u64),
            None => None,
        })
    }

    fn read(&mut self, object: Object, at: u64, into: &mut [u8]) -> Result<(), Failed> {
        self.failures.next_call()?;
        copy_from(bytes_in(&self.objects, object), at as usize, into);
        Ok(())
    }
}

impl ImageSink for MemImages {
    ghost made = { λ images. Some (lookup images.objects.items) };

    ghost kept = { λ images. Some (lookup images.objects.items) };

    ghost faults = { λ images. images.failures.faults };

    #[tactic(auto, using(crate::proofs::Grown::unfinished))]
    fn write(&mut self, object: Object, _at: u64, bytes: &[u8]) -> Result<(), Failed> {
        self.failures.next_call()?;
        match append(self.alloc, &mut self.objects, object, bytes) {
            Ok(()) => Ok(()),
            Err(_) => Err(self.failures.fail()),
        }
    }

    fn finish(&mut self) -> Result<(), Failed> {
        self.failures.next_call()?;
        match append(self.alloc, &mut self.objects, Object::Mark, &[]) {
            Ok(()) => Ok(()),
            Err(_) => Err(self.failures.fail()),
        }
    }
}
