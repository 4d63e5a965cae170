//! The lanes of an arena, run by a schedule: the lines of `session_script` say which lane begins
//! which call and how many steps it makes, so that a race can be written down and run.
//!
//! ```text
//!  call 1 write 9 fill:11     lane 1 begins to write sector 9
//!  step 1 138                 .. and makes 138 steps         lane 1 ok
//!  call 0 read 9              lane 0 begins to read it
//!  step 0 1                   .. and looks at the map
//!  call 0 read 3              it is in a call                lane 0 refused LaneBusy Looking
//!  step 1 7                   lane 1 has nothing to do       lane 1 idle
//!                             the end of the schedule        lane 0 cut
//! ```
//!
//! - **A line** has a number, from 1 on. A call's tag has the lane as session and the line's number
//!   as call.
//! - **A call is refused**, with the first of these reasons: no such lane, no such sector, a value
//!   of another length than a sector, a lane in a call (`read_refusal`, `write_refusal` in
//!   `specs/Calls.antt`). Then nothing begins.
//! - **Steps** print the answer of the lane's call when it comes, and at most once a line that the
//!   lane is idle (`steps` in `specs/Steps.antt`).
//! - **At the end** each lane that is in a call is cut (`all_cuts` in `specs/Playing.antt`).
//!
//! | promise of [`play`] | clause | definition |
//! |---|---|---|
//! | the text is that of the lines | `text` | `replay_text` |
//! | the core holds what the lines lead to | `held` | `replayed` |
//! | it is a core of the same arena, also after an error | `sound`, `core`, `arena` | `IsSomeCore`, `KeepsCore`, `KeepsArena` |
//! | the history of the calls is legal, and the words open again after every power cut | law [`replays_stand`] | `ReplayStands` |
//!
//! **Steps without end.** A line may ask for 2^64 - 1 steps of a lane that can't go on while no
//! other lane steps. The state and the text are those of all its steps, and few of them are made:
//! an idle lane stops, and so does a write whose lock another lane has. A write that scans, and
//! finds its block in a reader's word, goes round; after one round only the rest of the steps,
//! divided by the round's, is left (`scan_round`).
//!
//! The lines and their texts are this project's own; the algorithm is that of Linux's BTT document,
//! in `lane_core`.
#![tactic(auto)]

mod calls;
mod lanes;
mod law;
mod lines;
mod playing;
mod refused;
mod scanning;
mod steps;
mod values;

pub use law::replays_stand;
pub use playing::play;
pub use values::{length_of, value_words};
