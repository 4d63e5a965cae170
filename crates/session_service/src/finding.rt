//! Where a sector of the namespace that a session has open lies.
ghost use Rattle.std.specs.Prelude.{◌≡◌, ◌^◌, ◌<◌, ◌≤◌, length, Option, Err, IfOk, MatchOption};
ghost use Rattle.session_account.specs.Sectors.{on_open};
ghost use Rattle.session_account.specs.Serving.{Shape};
ghost use Rattle.session_account.specs.declared.reply.Reply.{Reply as Replied};
ghost use Rattle.session_account.specs.declared.reply.Reply.TheVariants as reply;
ghost use Rattle.session_service.specs.Namespaces.{AreLaid, HasNone, IsFirstOf, IsFound, IsFoundAt, LiesAt, externals, servings_at};

use crate::namespaces::NamespaceArenas;
use arena_layout::Layout;
use session_account::Reply;
use uuid::Uuid;

/// A sector of an arena.
#[derive(Debug, Drop)]
pub struct FoundSector {
    /// The number of the arena, among all arenas.
    pub(crate) arena: usize,
    /// The number of the sector in the arena.
    pub(crate) sector: u32,
    /// The size of the sector in bytes.
    pub(crate) bytes: u32,
}

/// The place of the namespace with a UUID, if there is one.
fn place_of(places: &[NamespaceArenas], uuid: &Uuid) -> Option<usize>
    ensures { MatchOption result (HasNone places.now uuid.now) (IsFirstOf places.now uuid.now) }
{
    for (i, place) in places.iter().enumerate() {
        if place.uuid == *uuid {
            return Some(i);
        }
    }
    None
}

/// The number of sectors in all arenas together.
fn sectors_in(arenas: &[Layout]) -> u64
    requires few { length arenas.now < 2 ^ 32 }
    ensures { result ≡ externals arenas.now }
{
    let mut count = 0;
    for arena in arenas {
        count += u64::from(arena.external);
    }
    count
}

/// The arena of a sector, and the sector's number there.
fn locate(arenas: &[Layout], sector: u64) -> Option<(usize, u32)>
    ensures { MatchOption result (externals arenas.now ≤ sector) (λ at. LiesAt arenas.now sector at.0 at.1) }
{
    let mut own = sector;
    for (k, arena) in arenas.iter().enumerate() {
        let external = u64::from(arena.external);
        if own < external {
            return Some((k, own as u32));
        }
        own -= external;
    }
    None
}

/// Finds a sector of a namespace at its place.
fn find_at(place: &NamespaceArenas, sector: u64) -> Result<FoundSector, Reply>
    requires first { place.now.first < 2 ^ 32 }
    requires few { length place.now.arenas.items < 2 ^ 32 }
    ensures found { IfOk result (IsFoundAt place.now sector) }
    ensures check { (r : Replied) → result ≡ Err r → (externals place.now.arenas.items ≤ sector) × (r ≡ reply.Range (externals place.now.arenas.items)) }
{
    match locate(place.arenas.as_slice(), sector) {
        Some((k, own)) => Ok(FoundSector {
            arena: place.first + k,
            sector: own,
            bytes: place.arenas[k].sector,
        }),
        None => Err(Reply::Range {
            count: sectors_in(place.arenas.as_slice()),
        }),
    }
}

/// Finds a sector of the namespace that is open, or says why there is none.
pub(crate) fn find(
    places: &[NamespaceArenas],
    held: Option<Uuid>,
    sector: u64,
) -> Result<FoundSector, Reply>
    requires { AreLaid places.now }
    ensures found { IfOk result (IsFound (servings_at places.now) held sector) }
    ensures check { (r : Replied) (further : Shape → Option Replied) → result ≡ Err r → on_open (servings_at places.now) held sector further ≡ Some r }
{
    let Some(uuid) = held else {
        return Err(Reply::NotOpen);
    };
    match place_of(places, &uuid) {
        Some(i) => find_at(&places[i], sector),
        None => Err(Reply::Range { count: 0 }),
    }
}
