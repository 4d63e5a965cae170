//! The lengths of the modules' objects.
ghost use Rattle.std.specs.Prelude.{◌≡◌, ◌≤◌, length, map, IfOk};
ghost use Rattle.std.specs.Option.{ForSome};
ghost use Rattle.std.specs.List.{range_with_len};
ghost use Rattle.nvd_media.specs.Causes.{LeavesSource};
ghost use Rattle.set_objects.specs.Found.{contents_of, found_in};

use crate::fault::ReadStop;
use nvd_media::{ImageSource, Object};
use nvd_words::Items;
use std::alloc::{AllocError, Global};

/// The lengths of a module's objects in bytes; `None` if the object is absent.
#[derive(Clone, Copy, Debug, PartialEq, Eq)]
pub(crate) struct Found {
    pub labels: Option<u64>,
    pub contents: Option<u64>,
    pub bad: Option<u64>,
}

/// Asks for the lengths of a module's objects.
fn find_module<S: ImageSource>(images: &mut S, module: u32) -> Result<Found, ReadStop>
    ensures told { ForSome (S.held images.old)
        (λ set. IfOk result (λ found. found ≡ found_in set «module»)) }
    ensures source { LeavesSource (S.held images.old) (S.held images.new)
        (S.faults images.old) (S.faults images.new) result ReadStop.ReadFault }
{
    let labels = images.length(Object::Labels(module))?;
    let contents = images.length(Object::Contents(module))?;
    let bad = images.length(Object::BadRanges(module))?;
    Ok(Found {
        labels,
        contents,
        bad,
    })
}

/// Asks for the lengths of the objects of `count` modules.
pub(crate) fn find_modules<S: ImageSource>(
    alloc: Global,
    images: &mut S,
    count: u32,
) -> Result<Items<Found>, ReadStop>
    ensures told { ForSome (S.held images.old)
        (λ set. IfOk result (λ found. found ≡ map (found_in set) (range_with_len 0 count))) }
    ensures count { IfOk result (λ found. length found ≡ count) }
    ensures source { LeavesSource (S.held images.old) (S.held images.new)
        (S.faults images.old) (S.faults images.new) result ReadStop.ReadFault }
{
    let mut found = Items::new(alloc);
    for module in 0..count {
        let of_module = find_module(images, module)?;
        found.push(of_module)?;
    }
    Ok(found)
}

/// Returns the length of each module's contents in bytes, 0 if they are missing.
pub(crate) fn contents_sizes(alloc: Global, found: &[Found]) -> Result<Items<u64>, AllocError>
    ensures { IfOk result (λ bytes. bytes ≡ contents_of found.now) }
{
    let mut bytes = Items::new(alloc);
    for of_module in found {
        bytes.push(of_module.contents.unwrap_or(0))?;
    }
    Ok(bytes)
}
