//! Namespaces whose arenas were read are opened in memory.
ghost use Rattle.std.specs.Prelude.{◌≡◌, ℕ, IfOk, List, map};
ghost use Rattle.std.specs.List.{All};
ghost use Rattle.nvd_media.specs.Causes.{HasCause};
ghost use Rattle.sector_namespaces.specs.View.{rows_of};
ghost use Rattle.served_namespaces.specs.Reading.{AreHeld, AreReadable, HaveEnds, IsHeld, IsOpened, IsReadIn, IsSoundRead, IsUnbroken, IsUncut, RevealsAll, opened_all, opened_in};

use crate::places::{NotOpened, OpenedNamespace, ReadNamespace};
use crate::reading::not_opened;
use crate::sets::set_at;
use interleave::InterleaveSet;
use namespace_words::load_arenas;
use nvd_media::{Failed, ImageSource};
use nvd_words::Items;
use power_cut::SetExtent;
use std::alloc::Global;

/// Opens the arenas of a namespace.
fn load_one<S: ImageSource>(
    alloc: Global,
    images: &mut S,
    sets: &[InterleaveSet],
    read: ReadNamespace,
) -> Result<Result<OpenedNamespace, NotOpened>, Failed>
    requires sound { IsSoundRead sets.now read }
    requires readable { AreReadable sets.now }
    requires there { HaveEnds (S.held images.old) sets.now }
    ensures place { IfOk result (λ loaded. IfOk loaded (λ o. o.place ≡ read.place)) }
    ensures open { IfOk result (λ loaded. IfOk loaded (IsOpened sets.now)) }
    ensures told { (contents : List (List ℕ)) → RevealsAll (S.held images.old) sets.now contents → IsReadIn sets.now contents read
        → IfOk result (λ loaded. IsUnbroken loaded × IfOk loaded (λ o. (o ≡ opened_in sets.now contents read) × IsHeld sets.now (rows_of contents) o)) }
    ensures uncut { IfOk result IsUncut }
    ensures same { S.held images.new ≡ S.held images.old }
    ensures cause { HasCause (S.faults images.old) (S.faults images.new) result }
{
    let ReadNamespace { place, arenas } = read;
    let set = set_at(sets, place.found.region);
    let _ways = set.ways();
    let extent = SetExtent::of(set, place.found.offset, place.found.raw);
    match load_arenas(alloc, images, &extent, arenas.as_slice(), &place.uuid)? {
        Ok(chain) => Ok(Ok(OpenedNamespace {
            place,
            states: Items::from_vec(chain.into_arenas()),
        })),
        Err(refused) => Ok(Err(not_opened(&place, refused))),
    }
}

/// Opens the arenas of namespaces in memory, with their pending moves made: reads the words of all arenas from the source. Nothing is
/// stored there.
///
/// The arenas are those that `read_each` returned; what it read of them is freed one namespace after another.
///
/// `told`: with the contents that the source reveals, and in which these are the arenas, none is refused. The states are those of these arenas, and
/// the words of each namespace hold them once its pending moves are made. `open`: whatever it reveals, the states are sound. A source that
/// reveals nothing may have changed since the arenas were read: then `Broken` names the first that isn't opened. `OutOfMemory` may come in
/// place of any answer. `Failed` means that the source's count of failures rose.
pub fn load_each<S: ImageSource>(
    alloc: Global,
    images: &mut S,
    sets: &[InterleaveSet],
    read: Items<ReadNamespace>,
) -> Result<Result<Items<OpenedNamespace>, NotOpened>, Failed>
    requires sound { All (IsSoundRead sets.now) read }
    requires readable { AreReadable sets.now }
    requires there { HaveEnds (S.held images.old) sets.now }
    ensures places { IfOk result (λ loaded. IfOk loaded (λ opened. map (λ o. o.place) opened ≡ map (λ n. n.place) read)) }
    ensures open { IfOk result (λ loaded. IfOk loaded (All (IsOpened sets.now))) }
    ensures told { (contents : List (List ℕ)) → RevealsAll (S.held images.old) sets.now contents → All (IsReadIn sets.now contents) read
        → IfOk result (λ loaded. IsUnbroken loaded × IfOk loaded (λ opened. (opened ≡ opened_all sets.now contents read) × AreHeld sets.now (rows_of contents) opened)) }
    ensures uncut { IfOk result IsUncut }
    ensures same { S.held images.new ≡ S.held images.old }
    ensures cause { HasCause (S.faults images.old) (S.faults images.new) result }
{
    let mut opened = Items::new(alloc);
    for namespace in read.into_vec() {
        match load_one(alloc, images, sets, namespace)? {
            Ok(one) => {
                if opened.push(one).is_err() {
                    return Ok(Err(NotOpened::OutOfMemory));
                }
            }
            Err(refused) => return Ok(Err(refused)),
        }
    }
    Ok(Ok(opened))
}
