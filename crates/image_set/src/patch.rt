//! Changing the contents of modules while they are copied.
ghost use Rattle.std.specs.Prelude.{◌≡◌, ℕ, ◌+◌, ◌^◌, ◌<◌, IsTrue, length};
ghost use Rattle.image_set.specs.Patches.{IsCovered, patched_row};

/// What changes the contents of modules while they are copied: each byte by itself.
pub trait Patch {
    /// The new value of a byte of a module's contents: by the module's number, the byte's address,
    /// and its old value.
    ghost patched: { Self → ℕ → ℕ → ℕ → ℕ };

    /// Returns whether the new values of these bytes don't depend on the old ones. Such a piece
    /// isn't read. It ends below address 2^64.
    fn covers(&self, module: u32, at: u64, bytes: u64) -> bool
        requires { at + bytes < 2 ^ 64 }
        ensures { IsTrue result → IsCovered (patched self.now) «module» at bytes };

    /// Changes a piece of a module's contents, of which `at` is the address of the first byte. It ends
    /// below address 2^64.
    fn patch(&self, module: u32, at: u64, piece: &mut [u8])
        requires { at + length piece.old < 2 ^ 64 }
        ensures { piece.new ≡ patched_row (patched self.now) «module» at piece.old };
}

/// Changes nothing: each byte keeps its value.
#[derive(Clone, Copy, Debug)]
pub struct NoPatch;

impl Patch for NoPatch {
    ghost patched = { λ _ _ _ old. old };

    fn covers(&self, _module: u32, _at: u64, _bytes: u64) -> bool {
        false
    }

    fn patch(&self, _module: u32, _at: u64, _piece: &mut [u8]) {}
}
