ghost use Rattle.std.specs.Prelude.{◌≡◌, Some, None, is_ok};
ghost use Rattle.cut_words.specs.Fuses.{burnt, lasts};

use std::marker::Model;

/// The number of steps that are still made before power is cut, or no limit. Contracts see it as an
/// `Option` of that number.
#[derive(Debug, Drop)]
pub struct Fuse {
    steps: Option<u64>,
}

/// Power was cut before the step.
#[derive(Clone, Copy, Debug, PartialEq, Eq)]
pub struct PowerCut;

impl Model for Fuse {
    ghost use Rattle.std.specs.Prelude.{ℕ, Option};

    ghost Value = { Option ℕ };

    ghost view = { λ fuse. fuse.steps };
}

impl Fuse {
    /// Returns a fuse without a limit: power stays on.
    pub fn none() -> Fuse
        ensures { result ≡ None }
    {
        Fuse { steps: None }
    }

    /// Returns a fuse that cuts power after `steps` steps.
    pub fn after(steps: u64) -> Fuse
        ensures { result ≡ Some steps }
    {
        Fuse { steps: Some(steps) }
    }

    /// Returns how many steps are left, `None` if there is no limit.
    pub fn left(&self) -> Option<u64>
        ensures { result ≡ self.now }
    {
        self.steps
    }

    /// Takes a step. `PowerCut` means that no step was left.
    pub fn spend(&mut self) -> Result<(), PowerCut>
        ensures made { is_ok result ≡ lasts self.old 1 }
        ensures left { self.new ≡ burnt self.old 1 }
    {
        match self.steps {
            None => Ok(()),
            Some(0) => Err(PowerCut),
            Some(steps) => {
                self.steps = Some(steps - 1);
                Ok(())
            }
        }
    }
}
