//! The outside of the program: image sets and texts that it reads and writes.
//!
//! An **image set** holds an NFIT and, for each module, a label area, contents and a list of bad
//! ranges. Each is a string of bytes under the name of its [`Object`]. The object `Mark` has no
//! bytes and is written last: a set without it was never finished, and isn't an image set.
//!
//! ```text
//! IN/nfit.bin  IN/labels-0.bin  IN/contents-0.bin  IN/badranges-0.bin  ..  IN/complete
//!    Nfit         Labels(0)        Contents(0)        BadRanges(0)           Mark
//! ```
//!
//! The outside is a set of traits. Their ghost members say what a proof may know:
//!
//! - *The bytes* (`held`, `made`, `left`, `written`): an `Option`. An object in memory reveals its
//!   bytes (`Some`). A directory or a terminal reveals nothing (`None`), and a proof assumes
//!   nothing of its bytes.
//! - *The count of failures* (`faults`): it never falls. A call returns [`Failed`] only if the
//!   count rose in that call (`specs/Causes.antt`, `HasCause`), so no caller can invent a failure.
//!   The functions over these calls say the same in one record: `LeavesSource` of a source that was
//!   read, `LeavesOutside` of a source and a sink between which bytes were copied.
//!
//! `specs/Images.antt` defines image sets as functions from objects to bytes, and relates what is
//! revealed before and after a call (`Becomes`).
//!
//! [`MemImages`] and [`MemText`] live in memory and can be made to fail at any call. No call of
//! [`SureImages`] and [`SureText`] fails. Directories and the standard streams are in `nvd_files`.
#![tactic(auto)]

mod chooser;
mod failures;
mod gate;
mod mem_images;
mod mem_text;
mod object;
mod sure_images;
mod sure_text;
mod traits;
mod whole_text;

pub use chooser::{ListChooser, SeedChooser};
pub use gate::NoGate;
pub use mem_images::{MemImages, Stored};
pub use mem_text::MemText;
pub use object::Object;
pub use sure_images::SureImages;
pub use sure_text::SureText;
pub use traits::{Chooser, Failed, Gate, ImageSink, ImageSource, TextSink, TextSource};
pub use whole_text::{TextFault, read_all};
