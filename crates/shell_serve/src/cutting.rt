//! Power is cut: the words of all arenas after it.
ghost use Rattle.std.specs.Prelude.{IfOk};
ghost use Rattle.cut_words.specs.Words.{IsLeft};
ghost use Rattle.power_cut.specs.Left.{Each, InTurn, LeavesWords};
ghost use Rattle.shell_serve.specs.Chosen.{LeavesArenas};

use nvd_media::Chooser;
use nvd_words::Items;
use session_service::ArenaEnd;
use std::alloc::{AllocError, Global};

/// Returns the words of a namespace's arenas after a power cut, in order.
///
/// The chooser is asked once for each word that has two values, in order.
fn cut_arenas<C: Chooser>(
    alloc: Global,
    arenas: Vec<ArenaEnd>,
    choose: &mut C,
) -> Result<Items<Items<u64>>, AllocError>
    ensures cut { IfOk result (Each IsLeft arenas.items) }
    ensures asked { IfOk result (λ parts. InTurn (LeavesWords C.picks) arenas.items parts choose.old choose.new) }
{
    let mut left = Items::new(alloc);
    for arena in arenas {
        left.push(arena.leave(choose))?;
    }
    Ok(left)
}

/// Returns the words of the arenas of all namespaces after a power cut, in order.
pub(crate) fn cut_all<C: Chooser>(
    alloc: Global,
    arenas: Vec<Vec<ArenaEnd>>,
    choose: &mut C,
) -> Result<Vec<Items<Items<u64>>>, AllocError>
    ensures cut { IfOk result (λ left. Each (λ own parts. Each IsLeft own.items parts) arenas.items left.items) }
    ensures asked { IfOk result (λ left. InTurn (LeavesArenas C.picks) arenas.items left.items choose.old choose.new) }
{
    let mut left = Vec::new(alloc);
    for own in arenas {
        left.push(cut_arenas(alloc, own, choose)?)?;
    }
    Ok(left)
}
