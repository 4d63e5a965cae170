//! Formats, opens and reads arenas of a Block Translation Table, in any row of words.
//!
//! An arena is a range of a namespace's words. `specs/Places.antt` defines what each word is:
//!
//! ```text
//!   word   0           data_off / 8                 map_off / 8         flog_off / 8      info_off / 8
//!        +-----------+----------------------------+-------------------+-----------------+-----------+
//!        | info_word | block_word b k             | map_word w        | log_word lane k | backup    |
//!        |   512     |   inner / 8 words a block  |   entries 2w, +1  |   8 a lane      |   512     |
//!        +-----------+----------------------------+-------------------+-----------------+-----------+
//! ```
//!
//! **Formatting** writes the map, the log, the backup and finally the info block ([`format_arena`],
//! `specs/Format.antt`). It stores and flushes each word before the next one. Afterwards each
//! sector has the block of its own number and reads as zeros, and each lane owns one of the blocks
//! after these.
//!
//! **Opening** reads the info block, the log and the map, and finds the pending moves, those that
//! the log has and the map doesn't ([`read_arena`], `specs/Reading.antt`). [`open_arena`] also
//! completes these moves in the space and reads the arena's words into memory ([`ArenaState`],
//! `specs/Moves.antt`), from which [`cell_of`] reads a sector. A caller that only reads needs
//! neither: [`cell_in_place`] reads the same cell from the words in the space, by the map in
//! memory, which has the moves.
//!
//! # Chains of arenas
//!
//! A sector namespace holds a chain of arenas (UEFI 2.10, section 6.2). The NextOff field of each
//! info block is the distance in bytes from the arena's start to the next arena's, or 0 in the last
//! arena.
//!
//! ```text
//!   word    first                 first + size / 8
//!         +---------------------+---------------------+----------
//!         | arena 0             | arena 1             | arena 2 ..
//!         | NextOff = its size  | NextOff = its size  |
//!         +---------------------+---------------------+----------
//! sectors   0 .. E0 - 1           E0 .. E0 + E1 - 1     ..
//! ```
//!
//! `specs/Chain.antt` defines the chain in the namespace's words (`chain_of`): the arenas up to the
//! first that is refused. [`open_chain`] opens all of them in order, completes their pending moves,
//! and returns their states or the first refusal (`chain_answer`). Sectors are numbered through all
//! arenas: `specs/ChainCells.antt` defines the namespace's contents as the list of all cells
//! (`contents_of`), and [`Chain::read`] returns one of them.
//!
//! [`read_chain`] is for callers that only read: it returns the same states, but leaves the words
//! in the space.
#![tactic(auto)]

mod area;
mod cell;
mod chain;
mod chain_in_place;
mod chain_open;
mod chain_refused;
mod format;
mod in_place;
mod law;
mod moves;
mod open;
mod opened;
mod read;
mod refused;
mod state;

pub use cell::{Cell, CellKind, cell_of};
pub use chain::Chain;
pub use chain_in_place::{ReadChain, read_chain};
pub use chain_open::open_chain;
pub use chain_refused::ChainRefused;
pub use format::format_arena;
pub use in_place::cell_in_place;
pub use law::{
    format_takes_two_steps_a_word, places_are_apart, places_are_inside, recovery_runs_again,
    writes_are_cut, writes_settle,
};
pub use moves::{decode_arena, free_blocks, make_moves, pending_moves};
pub use open::{open_arena, read_arena};
pub use opened::{LaneState, Opened};
pub use refused::OpenRefused;
pub use state::ArenaState;
