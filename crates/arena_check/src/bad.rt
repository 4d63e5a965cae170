ghost use Rattle.std.specs.Prelude.{◌≡◌, ℕ, ◌+◌, ◌^◌, ◌≤◌, Bool};
ghost use Rattle.std.specs.List.{list_any, range_with_len};

/// Which words of a namespace are bad, by their numbers.
pub trait BadWords {
    ghost bad: { Self → ℕ → Bool };

    /// Returns whether this word is bad.
    fn is_bad(&self, i: u64) -> bool
        ensures { result ≡ bad self.now i };

    /// Returns whether one of `count` words, from `first` on, is bad.
    ///
    /// The words must end at 2^61 at the latest.
    fn any_bad(&self, first: u64, count: u64) -> bool
        requires { first + count ≤ 2 ^ 61 }
        ensures { result ≡ list_any (bad self.now) (range_with_len first count) };
}
