//! The lanes of an arena: the algorithm of Linux's BTT document
//! (Documentation/driver-api/nvdimm/btt.rst) as a machine that steps one word at a time, and its
//! theorem.
//!
//! A **lane** makes one call at a time. It owns one **free block** and one **log group** of two
//! halves, of which the newer is **current**. A write never changes a block that a sector has. It
//! fills the free block, logs the move in the half that isn't current, and switches the sector's
//! **map entry** to the new block:
//!
//! ```text
//!  write   scan ── store and keep the words ── lock ── load map ── log A ── log B ── store map ── keep ── unlock
//!          others                              of the              each stored     |
//!          readers                             map word            and then kept   the write stands
//!
//!  read    load map ── publish block ── load map again ── load the words ── clear
//!                                       |
//!                                       same entry: the read stands; else clear and begin again
//! ```
//!
//! **Why a write scans.** Lane 0 reads sector 0 and is about to load block 3. Lane 1 writes the
//! sector: it switches the map to its own block and gets block 3 as its free block. If it began its
//! next write at once, lane 0 would load half of that. So a reader says in the **reader table**
//! which block it loads, and a writer looks at all others' words until none has its free block.
//! **Why a read checks the map again:** the scan may have passed before the reader's word was set.
//! Then the entry has changed, and the second look shows it. `proofs/Rows.antt` works out this
//! race.
//!
//! **Why the log has two words and an order.** A word that was stored and not yet **kept** is old
//! or new after a power cut. Word A is kept before word B is stored, and B has the sequence number,
//! so a half is current only once it is whole; the map word is stored only after that. Opening
//! completes a logged move that the map doesn't show yet.
//!
//! **The theorem.** Calls stand in one **history** (`specs/History.antt`): a write from the store
//! of its map word on, a read from its second look at the map on. `specs/Machine.antt` has the
//! state and a step for each line, `specs/Invariant.antt` the invariant `IsSound`, `specs/Cut.antt`
//! the state after a crash.
//!
//! | promise | law | definition |
//! |---|---|---|
//! | each line keeps the invariant | [`data_store_keeps_the_invariant`] and 19 more | `IsSound` |
//! | whatever lanes step in whatever order, the history is legal and gives the sectors' cells | [`every_run_keeps_the_invariant`] | `IsLegal`, `end_of` |
//! | whenever power is cut, each sector is as at the end of the history, or has the words of one write in flight | [`every_cut_survives`] | `IsRecoverable`, `Survives` |
//! | a write whose second log word was never stored is lost | [`unlogged_writes_are_lost`] | the same |
//! | the state after a crash opens again, with these contents | [`cuts_reopen`] | `IsReopened` |
//! | unfinished reads may be left out | [`every_account`], [`some_calls_may_be_left_out`] | `IsAccount`, `SomeMayGo` |
//! | a new arena is an opened one, so no law is empty | [`formatted_is_open`], [`opened_is_sound`] | `IsOpen` |
//! | a sector survives as at the end of the history, or as a running call would have left it | [`survivors_are_calls`] | `CoreSurvives` |
//! | a phase tells the least number of steps of its call | [`steps_are_paid`] | `least_steps` |
//! | others' calls and steps leave a session's calls and entries as they are | [`others_keep_parts`], [`own_part_is_known`] | `SamePart` |
//! | what a core's calls do and answer is a function of what it holds | [`a_core_is_what_it_holds`] | `held_after`, `answer_in` |
//! | after any list of calls and steps the history is legal and has exactly the answers, and each state after a crash opens again | [`schedules_stand`] | `Stands` |
//!
//! **The code.** A [`Core`] has the arena's words as they are seen and as they are kept, the reader
//! table and the locks in one row (`specs/Places.antt`), its lanes, and the history as a list of
//! entries. Each line is one function over the row and a lane (`lines.rt`, `looks.rt`); `steps.rt`
//! picks the line of the phase. The core shows a `State` (`specs/Showing.antt`). Lanes that share
//! their words (the crate `lane_table`) have the same row, so the reader words of neighbouring lanes
//! stand in different lines of cache (`reader_place`).
//!
//! | call | promise | clause |
//! |---|---|---|
//! | [`Core::of`] | it shows the state of the opened arena, and its history begins with the cells that a reader gets | `fresh`, `arena` |
//! | [`Core::begin`] | a call begins only in an idle lane, with room for its entry and its answer | `busy`, `begun`, `refused` |
//! | [`Core::step`] | it is the line of the lane's phase, and `Nothing` if and only if the lane is idle; what it does and answers is a function of what the core held | `line`, `keeps`, `held`, `answer` |
//! | [`Core::log`] | the calls that a lane answered, and its write whose map word is stored | `entries` |
//! | [`Core::cut`] | the chooser is asked once for each word stored since its last keep; each sector survives as above | `asked`, `survives` |
//! | the same | the words after the crash open as the same arena, each sector as at the end of the history or with the words of one write in flight | `reopens` |
//! | [`Core::into_words`] | whichever of its two values each word has after the crash, they open so too | `reopens` |
//! | `begin`, `step` | if sessions make one call at a time, no entry of one stands behind its open read | `serves` |
#![tactic(auto)]

mod arena_words;
mod begin;
mod buffer;
mod call;
mod calls;
mod cut;
mod history;
mod in_call;
mod lane;
mod law;
mod lines;
mod logs;
mod looks;
mod machine;
mod now;
mod phase;
mod pieces;
mod row;
mod shape;
mod stepped;
mod steps;
mod words;

pub use arena_words::ArenaWords;
pub use call::{Begun, Call};
pub use history::{Act, Entry};
pub use in_call::InCall;
pub use lane::Lane;
pub use law::{
    a_core_is_what_it_holds, calls_are_given_up, cuts_reopen, data_keep_keeps_the_invariant,
    data_load_keeps_the_invariant, data_store_keeps_the_invariant, each_block_is_named,
    every_account, every_cut_survives, every_run_keeps_the_invariant,
    flog_a_keep_keeps_the_invariant, flog_a_store_keeps_the_invariant,
    flog_b_keep_keeps_the_invariant, flog_b_store_keeps_the_invariant, formatted_is_open,
    lock_free_keeps_the_invariant, lock_take_keeps_the_invariant, map_check_keeps_the_invariant,
    map_keep_keeps_the_invariant, map_load_keeps_the_invariant, map_look_keeps_the_invariant,
    map_store_keeps_the_invariant, one_half_is_current, open_reads_may_go, opened_is_sound,
    others_keep_parts, own_part_is_known, places_are_apart, read_begins,
    rtt_clear_keeps_the_invariant, rtt_scan_keeps_the_invariant, rtt_set_keeps_the_invariant,
    schedules_stand, some_calls_may_be_left_out, steps_are_paid, survivors_are_calls,
    unlogged_writes_are_lost, write_begins,
};
pub use machine::Core;
pub use phase::Phase;
pub use shape::Shape;
pub use stepped::{Answer, Step, Stepped};
pub use words::{reader_place, reader_words};
