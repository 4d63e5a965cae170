ghost use Rattle.std.specs.Prelude.{◌≡◌, ◌+◌, ◌-◌, ◌^◌, min};
ghost use Rattle.nvd_media.specs.Choosers.{next_of, high_bit, list_answer};

use crate::traits::Chooser;

/// Returns the answers of a list, then `false`. A seed changes nothing.
#[derive(Drop)]
pub struct ListChooser {
    answers: Vec<bool>,
    next: usize,
}

impl ListChooser {
    /// Makes a chooser that returns these answers in order.
    pub fn new(answers: Vec<bool>) -> ListChooser
        ensures answers { result.answers ≡ answers }
        ensures first { result.next ≡ 0 }
    {
        ListChooser { answers, next: 0 }
    }
}

impl Chooser for ListChooser {
    ghost begins = { λ old _ new. new ≡ old };

    ghost picks = { λ old _ answer new. (answer ≡ list_answer old.answers.items old.next) × (new.answers ≡ old.answers) × (new.next ≡ min (old.next + 1) (2 ^ 64 - 1)) };

    fn begin(&mut self, _seed: u64) {}

    fn pick(&mut self, _word: u64) -> bool {
        let answer = self.answers.get(self.next).copied().unwrap_or(false);
        self.next = self.next.saturating_add(1);
        answer
    }
}

/// Draws each answer from a linear congruential generator. The state x becomes `(x *
/// 6364136223846793005 + 1442695040888963407) mod 2^64`, and the answer is whether its bit 63 is 1
/// (this project's rule). `begin` sets x to the seed.
#[derive(Clone, Copy, Debug)]
pub struct SeedChooser {
    state: u64,
}

impl SeedChooser {
    /// Makes a chooser whose state is the seed.
    pub fn new(seed: u64) -> SeedChooser
        ensures { result.state ≡ seed }
    {
        SeedChooser { state: seed }
    }
}

impl Chooser for SeedChooser {
    ghost begins = { λ _ seed new. new.state ≡ seed };

    ghost picks = { λ old _ answer new. (new.state ≡ next_of old.state) × (answer ≡ high_bit (next_of old.state)) };

    fn begin(&mut self, seed: u64) {
        self.state = seed;
    }

    fn pick(&mut self, _word: u64) -> bool {
        self.state = self
            .state
            .wrapping_mul(6364136223846793005)
            .wrapping_add(1442695040888963407);
        self.state >= 1 << 63
    }
}
