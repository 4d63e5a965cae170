//! The arenas of a namespace are checked, one after another.
ghost use Rattle.std.specs.Prelude.{◌≡◌, ℕ, ◌+◌, ◌-◌, ◌*◌, ◌%◌, ◌^◌, ◌<◌, ◌≤◌, [], ◌++◌, IfOk, List, OnOk, MatchBool, drop, length};
ghost use Rattle.nvd_media.specs.Causes.{HasCause};
ghost use Rattle.power_cut.specs.Namespace.{IsLaid, raw_bytes};
ghost use Rattle.namespace_words.specs.Source.{HasEnds, Reveals, bytes_by, words_by};
ghost use Rattle.arena_repair.specs.Chain.{reports_of};
ghost use Rattle.shell_check.specs.Reading.{IsListed, RepairsAll};
ghost use Rattle.shell_check.specs.Text.{arena_lines, left_of};

use crate::arena::{ArenaChecked, check_arena};
use crate::repair::push_repairs;
use crate::text::push_report;
use arena_check::BadWords;
use namespace_bytes::Run;
use nvd_media::{Failed, ImageSource};
use nvd_words::Items;
use power_cut::SetExtent;
use std::alloc::{AllocError, Global};
use uuid::Uuid;

/// The lines of a check, how many findings are open, and the runs of bytes that repair the
/// namespace.
#[derive(Drop)]
pub(crate) struct Checked {
    pub text: Vec<u8>,
    pub count: u64,
    pub runs: Items<Run>,
}

/// Appends the lines of arena k, and returns how many of its findings are open.
fn push_arena(
    alloc: Global,
    head: &str,
    repair: bool,
    k: u64,
    arena: ArenaChecked,
    text: &mut Vec<u8>,
) -> Result<u64, AllocError>
    ensures lines { OnOk result (text.new.items ≡ text.old.items ++ arena_lines head.now repair k arena.report) }
    ensures count { IfOk result (λ count. count ≡ length (left_of repair arena.report).findings) }
{
    push_report(alloc, head, repair, k, &arena.report, text)
}

/// Checks all arenas of a namespace, in order, and returns the lines of what was found, each of
/// which begins with `head`. The first arena begins with the namespace. With `repair` it returns the
/// runs of bytes that repair them, too; else none.
///
/// The namespace must be whole pages, and not empty. Of its contents the arenas' info blocks, logs
/// and maps are read. The call fails inside only if memory runs out; `Failed` means that the
/// source's count of failures rose.
pub(crate) fn check_chain<S: ImageSource, B: BadWords>(
    alloc: Global,
    images: &mut S,
    extent: &SetExtent<'_>,
    bad: &B,
    uuid: &Uuid,
    head: &str,
    repair: bool,
) -> Result<Result<Checked, AllocError>, Failed>
    requires laid { IsLaid extent.now }
    requires pages { raw_bytes extent.now % 4096 ≡ 0 }
    requires some { 0 < raw_bytes extent.now }
    requires few { raw_bytes extent.now ≤ 2 ^ 55 }
    requires there { HasEnds (S.held images.old) extent.now.set }
    ensures told { (contents : List (List ℕ)) → Reveals (S.held images.old) extent.now.set contents
        → IfOk result (λ found. IfOk found (IsListed head.now repair (reports_of (B.bad bad.now) (words_by extent.now contents) uuid.now))) }
    ensures few { IfOk result (λ found. IfOk found (λ checked. checked.count ≤ length checked.text.items)) }
    ensures repairs { (contents : List (List ℕ)) → Reveals (S.held images.old) extent.now.set contents
        → IfOk result (λ found. IfOk found (λ checked. MatchBool repair (RepairsAll (B.bad bad.now) uuid.now (bytes_by extent.now contents) checked.runs) (checked.runs ≡ []))) }
    ensures same { S.held images.new ≡ S.held images.old }
    ensures cause { HasCause (S.faults images.old) (S.faults images.new) result }
{
    let mut text = Vec::new(alloc);
    let mut runs = Vec::new(alloc);
    let mut k = 0;
    let mut count = 0;
    let mut at = 0;
    'arenas: loop {
        let Ok(arena) = check_arena(alloc, images, extent, bad, at, uuid)? else {
            return Ok(Err(AllocError));
        };
        let next = arena.next;
        if push_repairs(alloc, images, extent, repair, at, &arena, &mut runs)?.is_err() {
            return Ok(Err(AllocError));
        }
        let Ok(open) = push_arena(alloc, head, repair, k, arena, &mut text) else {
            return Ok(Err(AllocError));
        };
        count += open;
        if next == 0 {
            break 'arenas;
        }
        k += 1;
        at += next / 8;
    }
    Ok(Ok(Checked {
        text,
        count,
        runs: Items::from_vec(runs),
    }))
}
