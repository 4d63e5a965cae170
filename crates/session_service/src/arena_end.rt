//! An arena's words when its sessions have ended, and what a power cut leaves of them.
ghost use Rattle.std.specs.Prelude.{◌≡◌, ◌==◌, if◌then◌else◌, length, Some, None, IfOk};
ghost use Rattle.cut_words.specs.Leaving.{LeavesFrom, LeavesOne};
ghost use Rattle.cut_words.specs.Words.{IsLeft};
ghost use Rattle.session_service.specs.Ends.{HaveBoth, two_valued, words_of};

use lane_core::ArenaWords;
use nvd_media::Chooser;
use nvd_words::Items;
use std::alloc::{AllocError, Global};
use std::marker::Model;

/// The words of an arena when its sessions have ended. Contracts see the kept value of each word,
/// and the value that a load returns if it is another.
#[derive(Drop)]
pub struct ArenaEnd {
    seen: Vec<u64>,
    kept: Vec<u64>,
}

impl Model for ArenaEnd {
    ghost use Rattle.std.specs.Prelude.{◌≡◌, length};
    ghost use Rattle.cut_words.specs.Words.{Words};
    ghost use Rattle.session_service.specs.Ends.{two_valued};

    ghost Value = { Words };

    ghost view = { λ arena. two_valued arena.kept.items arena.seen.items };

    ghost invariant = { λ arena. length arena.seen.items ≡ length arena.kept.items };
}

/// One word after a power cut.
fn choose_one<C: Chooser>(choose: &mut C, word: u64, kept: u64, seen: u64) -> u64
    ensures { LeavesOne C.picks word kept (if kept == seen then None else Some seen) result choose.old choose.new }
{
    if kept != seen && choose.pick(word) {
        seen
    } else {
        kept
    }
}

/// Words after a power cut, of which these are kept and these are seen. The chooser is asked once
/// for each word whose two values differ, in rising order, and says whether the seen one survives.
fn choose_words<C: Chooser>(choose: &mut C, kept: Vec<u64>, seen: &[u64]) -> Vec<u64>
    requires same_length { length seen.now ≡ length kept.items }
    ensures asked { LeavesFrom C.picks 0 kept.items (two_valued kept.items seen.now).stored result.items choose.old choose.new }
    ensures left { IsLeft (two_valued kept.items seen.now) result.items }
{
    let mut left = kept;
    for i in 0..left.len() {
        left[i] = choose_one(choose, i as u64, left[i], seen[i]);
    }
    left
}

impl ArenaEnd {
    /// The words that an arena leaves.
    pub(crate) fn of_words(words: ArenaWords) -> ArenaEnd
        requires both { length words.seen.items ≡ length words.kept.items }
        ensures { result ≡ two_valued words.kept.items words.seen.items }
    {
        let ArenaWords { seen, kept } = words;
        ArenaEnd { seen, kept }
    }

    /// The arena's words after a power cut. It takes no memory.
    ///
    /// The chooser is asked once for each word of which a load returns another value than the kept
    /// one, in rising order. A word that was stored with the value that it had isn't asked for.
    pub fn leave<C: Chooser>(self, choose: &mut C) -> Items<u64>
        ensures asked { LeavesFrom C.picks 0 self.kept self.stored result choose.old choose.new }
        ensures left { IsLeft self result }
    {
        let ArenaEnd { seen, kept } = self;
        Items::from_vec(choose_words(choose, kept, &seen))
    }
}

/// The words that arenas leave.
pub(crate) fn ends_of(alloc: Global, arenas: Vec<ArenaWords>) -> Result<Vec<ArenaEnd>, AllocError>
    requires { HaveBoth arenas.items }
    ensures { IfOk result (λ ends. ends.items ≡ words_of arenas.items) }
{
    let mut ends = Vec::new(alloc);
    for words in arenas {
        ends.push(ArenaEnd::of_words(words))?;
    }
    Ok(ends)
}
