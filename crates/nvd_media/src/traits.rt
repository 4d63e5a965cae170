ghost use Rattle.std.specs.Prelude.{◌≡◌, ◌≢◌, ◌+◌, ◌++◌, ◌≤◌, ◌<◌, ℕ, Bool, List, [], Option, Some, None, length, take, drop, IfOk, OnOk, OnErr, MatchResult};
ghost use Rattle.std.specs.Option.{ForSome, option_map};
ghost use Rattle.std.specs.Io.{ReadsAtMost};
ghost use Rattle.std.specs.Io.KnownBytes.{Appends, ReadConsumes};
ghost use Rattle.nvd_media.specs.Causes.{HasCause};
ghost use Rattle.nvd_media.specs.Images.{Images, IsSameSet, Becomes, Keeps, IsUnfinished, bytes_of, with_more};

use crate::object::Object;

/// The outside refused a call and counted the failure.
#[derive(Clone, Copy, Debug, PartialEq, Eq)]
pub struct Failed;

/// An image set to read.
pub trait ImageSource {
    /// What it holds, if it reveals that. No call changes it.
    ghost held: { Self → Option Images };

    /// How often it failed.
    ghost faults: { Self → ℕ };

    /// Returns the length of an object in bytes, `None` if it is absent.
    fn length(&mut self, object: Object) -> Result<Option<u64>, Failed>
        ensures told { ForSome (held self.old) (λ set. IfOk result (λ found. found ≡ option_map length (set object))) }
        ensures same { held self.new ≡ held self.old }
        ensures cause { HasCause (faults self.old) (faults self.new) result };

    /// Fills `into` with the bytes of an object from the byte `at` on.
    ///
    /// If the source reveals its bytes, the range must lie inside the object. After `Failed` the
    /// buffer may hold any bytes.
    fn read(&mut self, object: Object, at: u64, into: &mut [u8]) -> Result<(), Failed>
        requires { ForSome (held self.old) (λ set. at + length into.old ≤ length (bytes_of set object)) }
        ensures told { ForSome (held self.old) (λ set. OnOk result (into.new ≡ take (length into.old) (drop at (bytes_of set object)))) }
        ensures same { held self.new ≡ held self.old }
        ensures cause { HasCause (faults self.old) (faults self.new) result };
}

/// An image set to write.
pub trait ImageSink {
    /// What was written, if it reveals that. `Mark` is in it once the set is finished.
    ghost made: { Self → Option Images };

    /// What it holds, if it reveals that all was stored. It may stop revealing at any call.
    ghost kept: { Self → Option Images };

    /// How often it failed.
    ghost faults: { Self → ℕ };

    /// Appends bytes to an object, and makes the object if it is absent.
    ///
    /// If the sink reveals what was written, `at` must be the object's length so far. The object
    /// must not be `Mark`. After `Failed` nothing is known of what was written, except that the
    /// call didn't write `Mark`.
    fn write(&mut self, object: Object, at: u64, bytes: &[u8]) -> Result<(), Failed>
        requires end { ForSome (made self.old) (λ set. at ≡ length (bytes_of set object)) }
        requires not_mark { object ≢ Object.Mark }
        ensures told { Becomes (made self.old) (made self.new) (λ set now. IsUnfinished set now × OnOk result (IsSameSet now (with_more set object bytes.now))) }
        ensures kept { OnOk result (Keeps (kept self.old) (kept self.new) (λ set now. IsSameSet now (with_more set object bytes.now))) }
        ensures cause { HasCause (faults self.old) (faults self.new) result };

    /// Finishes the set by writing `Mark`. After `Failed` the mark isn't there.
    fn finish(&mut self) -> Result<(), Failed>
        ensures told { Becomes (made self.old) (made self.new) (λ set now. MatchResult result (λ _. IsSameSet now (with_more set Object.Mark [])) (λ _. IsUnfinished set now)) }
        ensures kept { OnOk result (Keeps (kept self.old) (kept self.new) (λ set now. IsSameSet now (with_more set Object.Mark []))) }
        ensures cause { HasCause (faults self.old) (faults self.new) result };
}

/// A text to read.
pub trait TextSource {
    /// The bytes that are left, if it reveals them.
    ghost left: { Self → Option (List ℕ) };

    /// How often it failed.
    ghost faults: { Self → ℕ };

    /// Reads some bytes into the buffer and returns how many. Zero means the end, unless the buffer
    /// is empty. After `Failed` nothing was consumed.
    fn read(&mut self, into: &mut [u8]) -> Result<usize, Failed>
        ensures bound { ReadsAtMost result into.new }
        ensures bytes { ReadConsumes (left self.old) (left self.new) result into.new }
        ensures cause { HasCause (faults self.old) (faults self.new) result };
}

/// A text to write.
pub trait TextSink {
    /// What was written, if it reveals that.
    ghost written: { Self → Option (List ℕ) };

    /// The bytes it holds, if it reveals that all were stored. It may stop revealing at any call.
    ghost kept: { Self → Option (List ℕ) };

    /// How often it failed.
    ghost faults: { Self → ℕ };

    /// Writes all of the bytes. On `Failed` it may have written the first few.
    fn write(&mut self, bytes: &[u8]) -> Result<(), Failed>
        ensures all { OnOk result (Appends (written self.old) (written self.new) bytes.now) }
        ensures kept { OnOk result (Keeps (kept self.old) (kept self.new) (λ text now. now ≡ text ++ bytes.now)) }
        ensures part { OnErr result ((n : ℕ) × Appends (written self.old) (written self.new) (take n bytes.now)) }
        ensures cause { HasCause (faults self.old) (faults self.new) result };
}

/// Decides, for each pending word at a power cut, whether the stored value reaches the medium
/// (`true`) or the kept one stays (`false`). Any answer is allowed.
pub trait Chooser {
    /// How `begin` may change it, for a seed.
    ghost begins: { Self → ℕ → Self → Type 0 };

    /// What it may answer for a word, and its state afterwards.
    ghost picks: { Self → ℕ → Bool → Self → Type 0 };

    /// Starts anew from a seed.
    fn begin(&mut self, seed: u64)
        ensures { begins self.old seed self.new };

    /// Returns whether the stored value of a word survives.
    fn pick(&mut self, word: u64) -> bool
        ensures { picks self.old word result self.new };
}

/// Is told, outside all locks, when a session's call begins, has staged its block, and has
/// returned. It may delay a call.
pub trait Gate: Sync {
    /// A call begins.
    fn enter(&self, session: u32, call: u32);

    /// A write has staged its block and hasn't yet tried for the map lock.
    fn staged(&self, session: u32, call: u32);

    /// A call has returned.
    fn answered(&self, session: u32, call: u32);
}
