//! The command `import` of `nvdimm_shell`: plain bytes become the contents of a whole namespace.
//!
//! ```text
//! outline ── labels ──► namespace ──┬── raw ──────────────────────────► NewBytes::Raw ──────┐
//!                                   └── sectors ── read_arenas_from ──► NewBytes::Sectors ──┤
//!                                                                                           ▼
//! saved set ◄── put in while contents are copied ◄────────────────────────────── SetPatch
//!
//! refusals: labels and table as for `list`; the namespace isn't found; of sectors, image arena
//!           UUID K FAULT; refused Length, if the namespace has more bytes or fewer
//! ```
//!
//! It is the opposite of `export` (crate `shell_export`), whose definitions say what the bytes of a namespace are. Crate
//! `namespace_bytes` says what each byte becomes, and puts it there while the contents are copied from the source of the set.
//! So the contents are never in memory. The labels say where a namespace lies, and of which kind it is. Of one of sectors the
//! arenas' info blocks, logs and maps are read from the source first: they say which block each sector has.
//!
//! | what | definition |
//! |---|---|
//! | which refusal comes first, and what is saved | `ImportComes` of `specs/Import.antt` |
//! | the same on a set whose contents are in the source | `ImportsFrom` of `specs/Beginning.antt` |
//! | how it begins, by the labels | `Begins`, `IsSectorImport` of `specs/Beginning.antt` |
//! | what the arenas make of it | `Fills` of `specs/Beginning.antt` |
//! | what is read from a source | `Reveals`, `bytes_by` of `namespace_words` |
//! | the words of a raw namespace | `ImportsWords` of `specs/Import.antt` |
//! | the words of one of sectors | `HasContents` of `namespace_bytes` |
//!
//! No log is used, since no power is cut in an import: the command takes no `--cut`, and OUT is no set before all of it is
//! there. The order of refusals and the texts are this project's rules over UEFI 2.10, chapter 6.
#![tactic(auto)]

mod beginning;
mod import;
mod sectors;

pub use import::import_answer;
