//! Saving an image set: the firmware's table, the objects of the modules, and the mark last.
ghost use Rattle.std.specs.Prelude.{◌≡◌, ◌^◌, ◌<◌, ◌≤◌, length, vec_len, MatchResult, OnOk, Err};
ghost use Rattle.std.specs.Option.{ForSome};
ghost use Rattle.std.specs.Vec.{vec_capacity};
ghost use Rattle.nvd_media.specs.Causes.{HasCause, Rose};
ghost use Rattle.nvd_media.specs.Images.{IsEmptySet, IsSameSet, IsUnfinished, Becomes, Keeps};
ghost use Rattle.image_set.specs.Save.{HasModules, front_of, set_of};

use crate::fault::SaveFault;
use crate::writing::{spelling_room, write_module};
use nvd_media::{Failed, ImageSink, Object};
use nvd_words::Items;
use power_cut::Images;
use std::alloc::Global;

/// Writes all objects except the mark.
fn write_objects<K: ImageSink>(
    nfit: &[u8],
    images: &Images,
    bad: &[Option<Items<u8>>],
    out: &mut K,
    room: &mut Vec<[u8; 8]>,
) -> Result<(), Failed>
    requires empty { ForSome (K.made out.old) IsEmptySet }
    requires modules { HasModules images.now bad.now }
    requires few { length images.now.contents < 2 ^ 32 }
    requires room { 32768 ≤ vec_capacity room.old }
    ensures told { Becomes (K.made out.old) (K.made out.new) (λ set now. IsUnfinished set now
        × OnOk result (IsSameSet now (front_of (set_of nfit.now images.now bad.now) (length images.now.contents)))) }
    ensures kept { OnOk result (Keeps (K.kept out.old) (K.kept out.new) (λ set now. IsEmptySet set
        → IsSameSet now (front_of (set_of nfit.now images.now bad.now) (length images.now.contents)))) }
    ensures cause { HasCause (K.faults out.old) (K.faults out.new) result }
{
    out.write(Object::Nfit, 0, nfit)?;
    let labels = images.labels.as_slice();
    let contents = images.contents.as_slice();
    for module in 0..contents.len() as u32 {
        let at = module as usize;
        write_module(
            out,
            module,
            &labels[at],
            contents[at].as_slice(),
            &bad[at],
            room,
        )?;
    }
    Ok(())
}

/// Saves an image set: writes the firmware's table, then for each module by number its label area,
/// if it has one, its contents, and its list of bad ranges, if it has one, and then finishes the
/// set.
///
/// The lists of `images` and `bad` must have one entry for each module. If `out` reveals what was
/// written, it must be empty.
///
/// - `told`: if the sink reveals what was written, after `Ok` it has exactly these objects and the
///   mark, and after a fault the set isn't finished.
/// - `kept`: after `Ok`, a sink that reveals that all was stored holds exactly these objects.
/// - `failed`, `later`: `WriteFault` means that the sink's count of failures rose in this call; the
///   count never falls.
/// - `untouched`: `OutOfMemory` comes before the first call on the sink. The call allocates one
///   piece of 256 KiB, in which it converts words to bytes.
pub fn save<K: ImageSink>(
    alloc: Global,
    nfit: &[u8],
    images: &Images,
    bad: &[Option<Items<u8>>],
    out: &mut K,
) -> Result<(), SaveFault>
    requires empty { ForSome (K.made out.old) IsEmptySet }
    requires modules { HasModules images.now bad.now }
    requires few { length images.now.contents < 2 ^ 32 }
    ensures told { Becomes (K.made out.old) (K.made out.new) (λ set now. MatchResult result
        (λ _. IsSameSet now (set_of nfit.now images.now bad.now)) (λ _. IsUnfinished set now)) }
    ensures kept { OnOk result (Keeps (K.kept out.old) (K.kept out.new) (λ set now. IsEmptySet set
        → IsSameSet now (set_of nfit.now images.now bad.now))) }
    ensures failed { result ≡ Err SaveFault.WriteFault → Rose (K.faults out.old) (K.faults out.new) }
    ensures later { K.faults out.old ≤ K.faults out.new }
    ensures untouched { result ≡ Err SaveFault.OutOfMemory → out.new ≡ out.old }
{
    let mut room = spelling_room(alloc)?;
    write_objects(nfit, images, bad, out, &mut room)?;
    out.finish()?;
    Ok(())
}
