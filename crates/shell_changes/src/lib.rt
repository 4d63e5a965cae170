//! The commands of `nvdimm_shell` that change something, and the image set that they save.
//!
//! ```text
//! set ──► areas and sets ──► recovery ──► format ──► label changes ──► done_answer: ok, and the set
//!               │                │          │              ├── refused: the reason, nothing is saved
//!               └─ image fault   └─── power cut ───────────┴──► cut_answer: cut N, and the set
//! ```
//!
//! [`change_answer`] is the one way of `create`, `delete` and `rename`. All work on an outline of the set, and contents are
//! copied from the source as the set is saved ([`SavedSet`]). Only `create --mode sector` formats an arena: its steps are
//! counted, and its words are put into the contents while these are copied ([`Left::Patched`]). [`init_answer`] changes one
//! label area.
//!
//! One fuse counts all steps: recovery's, then the format's, then those of the labels. A refused command saves nothing,
//! not even what recovery did. `cut_answer` and `done_answer` make the [`Answer`] of what remains (`Remains`). After a
//! power loss the chooser is begun once from the stated seed. It is asked about the pending words of the label areas,
//! module by module, and then about those of the contents.
//!
//! | what | function | definition |
//! |---|---|---|
//! | what a command may come to | [`change_answer`] | `ChangeComes` of `specs/Namespaces.antt` |
//! | the saved label areas, to the byte | [`change_answer`] | `IsDone`, `IsPowerCut` of `specs/Namespaces.antt` |
//! | the saved contents | [`change_answer`] | `Formats`, `AreFormatted` of `specs/Work.antt` |
//! | what `init` may come to | [`init_answer`] | `InitComes` of `specs/Init.antt` |
//! | the commands that words say | [`create_in`], [`delete_in`], [`rename_in`] | `specs/Words.antt` |
//!
//! Laws say what that means for the map of namespaces (`map_of` of `specs/Maps.antt`), whoever makes the answer:
//!
//! | what | law |
//! |---|---|
//! | it is the map that `list`, `info` and `read` show | [`reports_show_the_map`] |
//! | no two namespaces of accepted images have extents that meet | [`accepted_is_apart`] |
//! | recovery, a command and a crash in a command keep it so | [`changes_keep_apart`] |
//! | after `ok` the map is the command applied to the map after recovery | [`done_is_the_command`] |
//! | after a crash it is that of a cut in recovery, in the format or in the command's labels | [`crash_is_in_either`] |
//! | every other namespace is as recovery made it, and the command's own is a state of its table | [`crash_leaves_others`] |
//! | recovered, it is the map before or after the command | [`crash_recovers`] |
#![tactic(auto)]

mod answer;
mod changing;
mod init;
mod laws;
mod refusals;
mod running;
mod saving;
mod words;

pub use answer::{Answer, Left, SavedSet, in_memory, without_set};
pub use changing::change_answer;
pub use init::init_answer;
pub use laws::{
    accepted_is_apart, changes_keep_apart, crash_is_in_either, crash_leaves_others, crash_recovers,
    done_is_the_command, reports_show_the_map,
};
pub use words::{create_in, delete_in, rename_in};
