//! The arenas of a namespace are read, one after another.
ghost use Rattle.std.specs.Prelude.{◌≡◌, ℕ, ◌+◌, ◌-◌, ◌*◌, ◌==◌, ◌%◌, ◌^◌, ◌<◌, ◌≤◌, if◌then◌else◌, ◌++◌, [], All, IfOk, List, MatchBool, OnOk, drop, length};
ghost use Rattle.std.specs.List.{cons_option};
ghost use Rattle.nvd_media.specs.Causes.{HasCause};
ghost use Rattle.power_cut.specs.Namespace.{IsLaid, raw_bytes};
ghost use Rattle.namespace_words.specs.Source.{HasEnds, Reveals, words_by};
ghost use Rattle.shell_rescue.specs.Lost.{arena_lines};
ghost use Rattle.shell_rescue.specs.Reading.{IsReadable, IsRescued};

use crate::arena::{ArenaFound, ArenaRescued, rescue_arena};
use crate::text::push_lost;
use arena_check::BadWords;
use arena_layout::InfoFault;
use nvd_media::{Failed, ImageSource};
use nvd_words::Items;
use power_cut::SetExtent;
use std::alloc::{AllocError, Global};
use uuid::Uuid;

/// What can be read of the arenas of a namespace.
#[derive(Drop)]
pub(crate) struct Rescued {
    pub arenas: Items<ArenaRescued>,
    /// The lines on what can't be read, if they were asked for; else nothing.
    pub text: Vec<u8>,
    /// How many sectors are lost; an arena without an info block counts as one.
    pub count: u64,
    /// Why there is no arena at all.
    pub refused: Option<InfoFault>,
}

/// Returns why the first arena has no info block, once arena k was read.
fn first_refused(k: u64, before: Option<InfoFault>, refused: Option<InfoFault>) -> Option<InfoFault>
    ensures { result ≡ (if k == 0 then refused else before) }
{
    if k == 0 { refused } else { before }
}

/// Appends an arena, if there is one.
fn push_arena(
    arenas: &mut Items<ArenaRescued>,
    arena: Option<ArenaRescued>,
) -> Result<(), AllocError>
    ensures { OnOk result (arenas.new ≡ arenas.old ++ cons_option arena []) }
{
    match arena {
        Some(arena) => arenas.push(arena),
        None => Ok(()),
    }
}

/// Appends arena k, and its lines if they are asked for.
fn take_arena(
    alloc: Global,
    listing: bool,
    k: u64,
    found: ArenaFound,
    arenas: &mut Items<ArenaRescued>,
    text: &mut Vec<u8>,
) -> Result<(), AllocError>
    ensures lines { OnOk result (MatchBool listing (text.new.items ≡ text.old.items ++ arena_lines k found.lost) (text.new.items ≡ text.old.items)) }
    ensures arenas { OnOk result (arenas.new ≡ arenas.old ++ cons_option found.arena []) }
{
    push_lost(alloc, listing, k, &found.lost, text)?;
    push_arena(arenas, found.arena)
}

/// Reads all arenas of a namespace, in order. The first one begins with the namespace. The lines on
/// what can't be read are made only if `listing` asks for them.
///
/// The namespace must be whole pages, and not empty. The call fails inside only if memory runs out;
/// `Failed` means that the source's count of failures rose.
pub(crate) fn rescue_chain<S: ImageSource, B: BadWords>(
    alloc: Global,
    images: &mut S,
    extent: &SetExtent<'_>,
    bad: &B,
    uuid: &Uuid,
    listing: bool,
) -> Result<Result<Rescued, AllocError>, Failed>
    requires laid { IsLaid extent.now }
    requires pages { raw_bytes extent.now % 4096 ≡ 0 }
    requires some { 0 < raw_bytes extent.now }
    requires few { raw_bytes extent.now ≤ 2 ^ 55 }
    requires there { HasEnds (S.held images.old) extent.now.set }
    ensures told { (contents : List (List ℕ)) → Reveals (S.held images.old) extent.now.set contents
        → IfOk result (λ found. IfOk found (IsRescued listing (B.bad bad.now) (words_by extent.now contents) uuid.now)) }
    ensures readable { IfOk result (λ found. IfOk found (λ r. All (IsReadable (raw_bytes extent.now)) r.arenas)) }
    ensures same { S.held images.new ≡ S.held images.old }
    ensures cause { HasCause (S.faults images.old) (S.faults images.new) result }
{
    let mut arenas = Items::new(alloc);
    let mut text = Vec::new(alloc);
    let mut refused = None;
    let mut count = 0;
    let mut k = 0;
    let mut at = 0;
    'chain: loop {
        let Ok(found) = rescue_arena(alloc, images, extent, bad, at, uuid)? else {
            return Ok(Err(AllocError));
        };
        let next = found.next;
        refused = first_refused(k, refused, found.refused);
        count += found.lost.count();
        let Ok(_) = take_arena(alloc, listing, k, found, &mut arenas, &mut text) else {
            return Ok(Err(AllocError));
        };
        if next == 0 {
            break 'chain;
        }
        k += 1;
        at += next / 8;
    }
    Ok(Ok(Rescued {
        arenas,
        text,
        count,
        refused,
    }))
}
