ghost use Rattle.std.specs.Prelude.{◌≡◌, ◌≢◌, ℕ, ◌+◌, ◌*◌, None, Ok, map, IfOk, OnOk};
ghost use Rattle.arena_open.specs.Writes.{IsSettled};
ghost use Rattle.arena_open.specs.Chain.{CanOpenChain, HasMemory, ChainOpensAgain, RecoversChain, RecoversFirst, chain_answer, found_again, wants_memory};

use crate::chain::Chain;
use crate::chain_refused::ChainRefused;
use crate::{OpenRefused, open_arena};
use cut_words::{Fuse, WordSpace};
use nvd_words::Items;
use std::alloc::Global;
use uuid::Uuid;

/// Opens the arenas of a namespace, in order; the first one begins at word `first`. It completes
/// the pending moves of each arena before it reads the next.
///
/// `first` and the number of words must be multiples of 512, so that each arena's info block lies
/// in the namespace. `first` must be a word of the space. The space may have at most 2^52 words,
/// none of them pending.
///
/// A refusal names the first arena that isn't opened, by its number in the chain. `Info`, `Flog`
/// and `Block` mean that its words violate the format. `PowerCut` means that fewer steps were left
/// than two for each of its pending moves. Until a refusal, the pending moves of the arenas before
/// it were completed; at a power cut, also as many steps of this arena's moves as there were.
/// `OutOfMemory` may replace any result; then exactly the moves of the arenas before were
/// completed. After Ok no word is pending, and the same arenas open again, without pending moves and
/// with the words that were returned (`again`, `found`).
pub fn open_chain<W: WordSpace>(
    alloc: Global,
    space: &mut W,
    fuse: &mut Fuse,
    first: u64,
    parent: &Uuid,
) -> Result<Chain, ChainRefused>
    requires chain { CanOpenChain first (W.words space.old) }
    ensures answer { HasMemory result → result ≡ chain_answer fuse.old (W.words space.old).kept parent.now first }
    ensures made { HasMemory result → RecoversChain (W.words space.old) (W.words space.new) fuse.old fuse.new parent.now first }
    ensures memory { (k : ℕ) → result ≡ Err (wants_memory k) → RecoversFirst k (W.words space.old) (W.words space.new) fuse.old fuse.new parent.now first }
    ensures beside { W.beside space.new ≡ W.beside space.old }
    ensures settles { OnOk result (IsSettled (W.words space.new)) }
    ensures again { OnOk result (ChainOpensAgain (W.words space.old).kept (W.words space.new).kept parent.now first) }
    ensures found { IfOk result (λ states. chain_answer None (W.words space.new).kept parent.now first ≡ Ok (map found_again states)) }
{
    let mut arenas = Vec::new(alloc);
    let mut at = first;
    'arenas: loop {
        let arena = arenas.len() as u32;
        if arenas.reserve(1).is_err() {
            return Err(ChainRefused {
                arena,
                fault: OpenRefused::OutOfMemory,
            });
        }
        match open_arena(alloc, space, fuse, at, parent) {
            Ok(state) => {
                let next = state.info.next;
                arenas.push_reserved(state);
                if next == 0 {
                    return Ok(Chain::new(Items::from_vec(arenas)));
                }
                at += next / 8;
            }
            Err(fault) => return Err(ChainRefused { arena, fault }),
        }
    }
}
