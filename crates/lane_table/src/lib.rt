//! An arena's lanes at once, on words that they share: the steps of `lane_core`, each one atomic
//! step of a table.
//!
//! Lanes run in threads of their own. They copy data without locks; only the map word of a sector
//! has a lock, and it is held for nine steps. Still each lane takes exactly the steps of the proved
//! algorithm, one word each, whatever the others do in between.
//!
//! # The words
//!
//! ```text
//!   0                total              2 * total       + readers      + lanes
//!   +----------------+------------------+---------------+--------------+
//!   | the arena, as  | the same words,  | reader word   | lock of map  |
//!   | a load returns | as they are      | of each lane: | word k:      |
//!   | them           | kept             | 0, block + 1  | 0, lane + 1  |
//!   +----------------+------------------+---------------+--------------+
//! ```
//!
//! To **keep** a word of the arena is one store into its kept word. A lane keeps a word that it
//! stored itself, so it stores its own value there, and needs no load.
//!
//! The reader table has a group of 256 words for each 256 lanes: 32 lines of cache of 8 words. Lane
//! r of a group has word `8 * (r % 32) + r / 32` (`reader_place` of lane_core's specs/Places.antt).
//! Lanes with neighbouring numbers run at once, so each stores in a line of its own, and still a
//! writer's scan of 255 words loads 32 lines. It goes through them once for each 32 lanes. The word
//! before the table is one of the backup info block, which no lane stores. The 4 KiB behind it are
//! unused. So the locks, which lanes store while others scan, stand in another page.
//!
//! # The rule
//!
//! The words are a table (of the crate `atomic_table`). Each lane steps with its **seat**, which
//! knows one lane's state, its **view**; a step changes one word and one view. The rule (`Holds` of
//! specs/Law.antt) is: there is a state of the machine in `lane_core`'s specs/Machine.antt that
//! meets that crate's invariant, that the words show, and whose lanes are what the seats know. No
//! view has the history: it stands in that state alone. proofs/WriteLines.antt and
//! proofs/ReadLines.antt show for each kind of step that it is a step of that state; so every run
//! of lanes in threads is a run of the machine, of which `lane_core` has the theorem.
//!
//! A write's call joins its lane's view at LockTake, and its words one by one as they are stored:
//! until then no step can tell them. A read's call joins as the read begins. A view counts its
//! steps and has what the last two looks found, so a call can't claim a step that it didn't make.
//!
//! # Sessions
//!
//! A session's calls use one lane after another. Its **pass** goes along: a seat that knows the
//! session's calls so far. `Lane::take_pass` joins it into the lane's view (`held`), `Lane::give_pass`
//! splits it off again. A call that enters the history, or is answered, adds its entry to the lane's
//! log and to the pass that the lane holds, in the same step. While a lane holds a pass, the seat's
//! count of steps is the pass's.
//!
//! The rule (`Passes` of specs/Law.antt) says for each session where its pass is, and that the
//! session's part of the history is the pass's list, but for a read whose words the lane still loads.
//! The passes that are yet to be made are one more such part, which lane 0's seat carries: their
//! sessions have no entries.
//!
//! # A read and a write of one block
//!
//! A reader says in its reader word which block it reads, and looks at the map again before it
//! loads a word. A writer looks at all reader words before it stores a word in its free block. Say
//! that lane 0 looks at a sector and finds block 3, and lane 1 then moves the sector, so that block
//! 3 is lane 1's free block. If lane 0's word was set before lane 1's scan came to it, the scan
//! finds it and lane 1 doesn't store. If it is set later, the map was switched before, so lane 0's
//! second look finds another entry, and it loads nothing. The rule ties each of the two facts to a
//! word.
//!
//! # The promises
//!
//! | promise | call | definition |
//! |---|---|---|
//! | the rule holds of a new table, whose history begins with the cells that a reader of the arena gets, and each lane's seat knows its lane | [`Arena::of`] | `IsMadeOf`, `AreFresh` of specs/Begun.antt |
//! | staging is one look at each other lane's reader word, then a store and a keep of each word; if a lane reports a reader, its last look found it | [`Lane::try_stage`] | `Stages` of specs/Outcomes.antt |
//! | a commit is the nine steps in order, or one step that found the lock's holder, or as many steps as the fuse had | [`Staged::try_commit`] | `Commits` of specs/Outcomes.antt, `way` of specs/Committed.antt |
//! | a refused commit returns the lane as it was, with its words | the same | `Commits`, case MapBusy |
//! | a read stands in its lane's part of the history with the cell that it returns, after the number of steps that its entry needs | [`Lane::try_read`] | `Reads`, `Stands` of specs/Outcomes.antt |
//! | a read says that the sector moved only if its two looks found different entries | the same | `Reads`, case Moved |
//! | a session's pass has the call that its lane answered, with its cell or its words | [`Staged::try_commit`], [`Lane::try_read`] | `CommitNotes`, `ReadNotes` of specs/Outcomes.antt |
//! | a pass has its session's part of the history that the arena's `close` returns, and the numbers of its calls rise | [`Arena::close`] | `IsClosed`, fields `held` and `loose` |
//! | a fuse that is set falls by one with each step; a step that is due without one isn't made | each step | `Fell`, `Burnt` of specs/Fuse.antt |
//! | the words at the end meet the invariant with the lanes' ends; one legal history has their calls, and the logs have these, without words; and each sector survives a power cut | [`Arena::close`] | `IsClosed` of specs/Closed.antt |
//! | each word that no lane stores, such as those of the info blocks, is as the arena was opened | the same | `IsClosed`, fields `seen_fixed` and `kept_fixed` |
//! | after a power loss these words open again, with the history's cells or those of a write in flight | [`closed_words_reopen`] | `ClosedWordsReopen` of specs/Reopened.antt |
//!
//! There is no promise of progress: a lock may never come free, and a refused lane may be refused
//! again.
#![tactic(auto)]

mod arena;
mod closing;
mod committing;
mod dealing;
mod fetching;
mod fuse;
mod gathering;
mod kinds;
mod lanes;
mod law;
mod loading;
mod log;
mod opening;
mod outcome;
mod pieces;
mod reading;
mod session_pass;
mod spots;
mod staged;
mod staging;
mod steps;
mod table;
mod words;
mod writing;

pub use arena::Arena;
pub use closing::{CloseRefused, Closed};
pub use fuse::Fuse;
pub use lanes::{Kit, Lane, LaneEnd, Staged, Stopped};
pub use law::closed_words_reopen;
pub use loading::Pause;
pub use log::{LaneLog, LoggedAct, LoggedCall};
pub use outcome::{CommitOutcome, ReadOutcome, StageOutcome};
pub use session_pass::Pass;
pub use table::{Call, Count, Key, LaneSeat, Law, Owned, PassPart, View, WordTable, Words};
