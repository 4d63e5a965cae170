//! The arenas of namespaces are read from an image source.
ghost use Rattle.std.specs.Prelude.{◌≡◌, ◌≤◌, ◌^◌, ℕ, Ok, Err, IfOk, List, map};
ghost use Rattle.std.specs.List.{All};
ghost use Rattle.nvd_media.specs.Causes.{HasCause};
ghost use Rattle.nfit_reader.specs.declared.table.Mapping.{Mapping};
ghost use Rattle.arena_open.specs.declared.chain_refused.ChainRefused.{ChainRefused as Refusal};
ghost use Rattle.namespace_words.specs.Source.{sizes_of};
ghost use Rattle.sector_namespaces.specs.View.{opened_view, rows_of};
ghost use Rattle.served_namespaces.specs.Places.{CanOpen, words_at};
ghost use Rattle.served_namespaces.specs.Opening.{opened_each};
ghost use Rattle.served_namespaces.specs.Reading.{AreReadable, HaveEnds, IsReadIn, IsSoundRead, IsUncut, RevealsAll, opened_all, opened_bytes, read_bytes};
ghost use Rattle.served_namespaces.specs.Steps.{IsRefused};

use crate::places::{FoundNamespace, NotOpened, ReadNamespace};
use crate::sets::set_at;
use arena_open::{ChainRefused, OpenRefused};
use interleave::InterleaveSet;
use namespace_words::{ArenaRead, read_arenas_from};
use nvd_media::{Failed, ImageSource};
use nvd_words::Items;
use std::alloc::Global;

/// Why a namespace isn't opened.
pub(crate) fn not_opened(place: &FoundNamespace, refused: ChainRefused) -> NotOpened
    ensures { IsRefused place.now refused result }
{
    match refused.fault {
        OpenRefused::OutOfMemory => NotOpened::OutOfMemory,
        _ => NotOpened::Broken {
            uuid: place.uuid,
            fault: refused,
        },
    }
}

/// Reads the arenas of a namespace.
fn read_one<S: ImageSource>(
    alloc: Global,
    images: &mut S,
    sets: &[InterleaveSet],
    place: &FoundNamespace,
) -> Result<Result<ReadNamespace, NotOpened>, Failed>
    requires can { CanOpen sets.now place.now }
    requires readable { AreReadable sets.now }
    requires there { HaveEnds (S.held images.old) sets.now }
    ensures place { IfOk result (λ read. IfOk read (λ n. n.place ≡ place.now)) }
    ensures sound { IfOk result (λ read. IfOk read (IsSoundRead sets.now)) }
    ensures told { (contents : List (List ℕ)) → RevealsAll (S.held images.old) sets.now contents → IfOk result (λ read. IfOk read (IsReadIn sets.now contents)) }
    ensures refused { (contents : List (List ℕ)) → RevealsAll (S.held images.old) sets.now contents → IfOk result (λ read. (uuid : List ℕ) (fault : Refusal) → read ≡ Err (NotOpened.Broken uuid fault)
        → (uuid ≡ place.now.uuid) × (opened_view (words_at sets.now place.now.found (rows_of contents)) place.now.uuid ≡ Err fault)) }
    ensures uncut { IfOk result IsUncut }
    ensures same { S.held images.new ≡ S.held images.old }
    ensures cause { HasCause (S.faults images.old) (S.faults images.new) result }
{
    let set = set_at(sets, place.found.region);
    let _ways = set.ways();
    let found = &place.found;
    match read_arenas_from(alloc, images, set, found.offset, found.raw, &place.uuid)? {
        Ok(arenas) => Ok(Ok(ReadNamespace {
            place: *place,
            arenas,
        })),
        Err(refused) => Ok(Err(not_opened(place, refused))),
    }
}

/// Reads the arenas of namespaces of an image set from a source, one namespace after another, in order. Only their info blocks, logs
/// and maps are read, and stay in memory.
///
/// Each namespace was found (`find_each`). If the source reveals its contents, these must reach the end of each mapping of the sets.
///
/// `told`: with the contents that the source reveals these are all arenas of each namespace, and none breaks the format. `sound`: whatever it
/// reveals, they are sound. Refusals:
///
/// - `Broken`: the first namespace of which an arena breaks the format, and its first such arena (`refused`).
/// - `OutOfMemory` may come in place of any other answer.
///
/// `Failed` means that the source's count of failures rose.
pub fn read_each<S: ImageSource>(
    alloc: Global,
    images: &mut S,
    sets: &[InterleaveSet],
    places: &[FoundNamespace],
) -> Result<Result<Items<ReadNamespace>, NotOpened>, Failed>
    requires can { All (CanOpen sets.now) places.now }
    requires readable { AreReadable sets.now }
    requires there { HaveEnds (S.held images.old) sets.now }
    ensures places { IfOk result (λ read. IfOk read (λ each. map (λ n. n.place) each ≡ places.now)) }
    ensures sound { IfOk result (λ read. IfOk read (All (IsSoundRead sets.now))) }
    ensures told { (contents : List (List ℕ)) → RevealsAll (S.held images.old) sets.now contents → IfOk result (λ read. IfOk read (λ each. All (IsReadIn sets.now contents) each
        × (opened_each sets.now (rows_of contents) places.now ≡ Ok (opened_all sets.now contents each)))) }
    ensures refused { (contents : List (List ℕ)) → RevealsAll (S.held images.old) sets.now contents → IfOk result (λ read. (uuid : List ℕ) (fault : Refusal) → read ≡ Err (NotOpened.Broken uuid fault)
        → opened_each sets.now (rows_of contents) places.now ≡ Err (record { uuid = uuid; fault = fault })) }
    ensures uncut { IfOk result IsUncut }
    ensures same { S.held images.new ≡ S.held images.old }
    ensures cause { HasCause (S.faults images.old) (S.faults images.new) result }
{
    let mut read = Items::new(alloc);
    for place in places {
        match read_one(alloc, images, sets, place)? {
            Ok(one) => {
                if read.push(one).is_err() {
                    return Ok(Err(NotOpened::OutOfMemory));
                }
            }
            Err(refused) => return Ok(Err(refused)),
        }
    }
    Ok(Ok(read))
}

/// How many bytes arenas have together.
fn sizes_of(arenas: &[ArenaRead]) -> u128
    requires { sizes_of arenas.now ≤ 2 ^ 55 }
    ensures { result ≡ sizes_of arenas.now }
{
    let mut bytes = 0;
    for arena in arenas {
        bytes += u128::from(arena.parts().info.layout.size);
    }
    bytes
}

/// Returns how many bytes the arenas of namespaces have together. They are as `read_each` returned them.
pub fn read_bytes(read: &[ReadNamespace]) -> u128
    requires { (sets : List (List Mapping)) × All (IsSoundRead sets) read.now }
    ensures bytes { result ≡ read_bytes read.now }
    ensures opened { (sets : List (List Mapping)) (contents : List (List ℕ)) → opened_bytes (opened_all sets contents read.now) ≡ result }
{
    let mut bytes = 0;
    for namespace in read {
        bytes += sizes_of(namespace.arenas.as_slice());
    }
    bytes
}
