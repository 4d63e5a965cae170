//! Where a piece of a text ends.
ghost use Rattle.std.specs.Prelude.{◌≡◌, ◌≤◌, ◌+◌, drop, length};
ghost use Rattle.session_script.specs.Lines.{before};

/// Returns how many bytes stand before the first `mark`: all of them if there is none.
pub(crate) fn count_before(bytes: &[u8], mark: u8) -> usize
    ensures count { result ≡ length (before mark bytes.now) }
    ensures within { result ≤ length bytes.now }
{
    let mut count = 0;
    let mut rest = bytes;
    while let [byte, others @ ..] = rest {
        if *byte == mark {
            return count;
        }
        count += 1;
        rest = others;
    }
    count
}

/// Returns what stands from `at` on.
pub(crate) fn text_from<'a>(text: &'a [u8], at: usize) -> &'a [u8]
    requires { at ≤ length text.now }
    ensures { result.now ≡ drop at text.now }
{
    &text[at..]
}

/// Returns the first line of a text, without its LF.
#[tactic(auto, using(crate::proofs::Parts::parts))]
pub(crate) fn first_line<'a>(text: &'a [u8]) -> &'a [u8]
    ensures { result.now ≡ before 10 text.now }
{
    &text[..count_before(text, b'\n')]
}

/// Returns what stands after the first line and its LF.
#[tactic(auto, using(crate::proofs::Parts::parts))]
pub(crate) fn after_line<'a>(text: &'a [u8]) -> &'a [u8]
    ensures { result.now ≡ drop (length (before 10 text.now) + 1) text.now }
{
    let count = count_before(text, b'\n');
    text_from(text, (count + 1).min(text.len()))
}
