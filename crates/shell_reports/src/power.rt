//! When power is cut, and how a run reports it.
ghost use Rattle.std.specs.Prelude.{◌≡◌, ◌≢◌, IfOk, None, Some, string_bytes};
ghost use Rattle.shell_reports.specs.Cut.{cut_text};

use cut_words::Fuse;
use std::alloc::{AllocError, Global};

/// When power is cut, and what survives.
#[derive(Clone, Copy, Debug, PartialEq, Eq)]
pub struct Power {
    /// How many steps are made before power is cut, the number of `--cut`; `None` if it isn't cut. A
    /// step stores one 8-byte word, or flushes one.
    pub steps: Option<u64>,
    /// The seed of the chooser that decides for each pending word whether it survives: the number
    /// of `--evict`, or 0.
    pub seed: u64,
}

/// Returns the fuse of a command.
pub fn fuse_of(power: Power) -> Fuse
    ensures { result ≡ power.steps }
{
    match power.steps {
        Some(steps) => Fuse::after(steps),
        None => Fuse::none(),
    }
}

/// Returns how many steps are made before power is cut: stores and flushes of one 8-byte word each.
///
/// The number must be given, so that power is cut.
pub fn steps_of(power: Power) -> u64
    requires { power.steps ≢ None }
    ensures { power.steps ≡ Some result }
{
    match power.steps {
        Some(steps) => steps,
        None => unreachable!(),
    }
}

/// Returns the line that says after how many steps power was cut.
pub fn cut_line(alloc: Global, steps: u64) -> Result<String, AllocError>
    ensures { IfOk result (λ text. string_bytes text ≡ cut_text steps) }
{
    format!(in alloc; "cut {}\n", steps)
}
