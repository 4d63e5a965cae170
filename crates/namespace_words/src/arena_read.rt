//! The arenas of a namespace whose contents stay in the source, as they are read.
ghost use Rattle.std.specs.Prelude.{◌≡◌, IfOk};

use arena_open::Opened;
use namespace_bytes::ArenaAt;
use nvd_words::Items;
use std::alloc::{AllocError, Global};
use std::marker::Model;

/// An arena in a namespace's words: its first word, and what was read of it.
#[derive(Debug, Drop)]
pub struct ArenaRead {
    /// Its first word in the namespace.
    pub at: u64,
    pub opened: Opened,
}

impl Model for ArenaRead {
    ghost use Rattle.arena_open.specs.Chain.{Link};

    ghost Value = { Link };

    ghost view = { λ arena. record { at = arena.at; opened = arena.opened } };
}

impl ArenaRead {
    /// Makes an arena whose first word in the namespace is `at` of what was read of it.
    pub fn new(at: u64, opened: Opened) -> ArenaRead
        ensures { result ≡ record { at = at; opened = opened } }
    {
        ArenaRead { at, opened }
    }

    /// Returns its first word in the namespace.
    pub fn first(&self) -> u64
        ensures { result ≡ self.now.at }
    {
        self.at
    }

    /// Returns what was read of it.
    pub fn parts(&self) -> &Opened
        ensures { result.now ≡ self.now.opened }
    {
        &self.opened
    }

    /// The same arena, as one whose sectors get bytes.
    fn into_arena(self) -> ArenaAt
        ensures { result ≡ self }
    {
        let ArenaRead { at, opened } = self;
        ArenaAt::new(at, opened)
    }
}

/// Returns the same arenas, as ones whose sectors get bytes. It fails only if memory runs out.
pub fn into_arenas(alloc: Global, arenas: Items<ArenaRead>) -> Result<Items<ArenaAt>, AllocError>
    ensures { IfOk result (λ made. made ≡ arenas) }
{
    let mut made = Items::new(alloc);
    for arena in arenas.into_vec() {
        made.push(arena.into_arena())?;
    }
    Ok(made)
}
