ghost use Rattle.std.specs.Prelude.{◌≡◌, ◌==◌, nat_le, count_by, Some};
ghost use Rattle.label_set.specs.Rules.{lesser, least_where, module_of, least_twice, least_missing, breaks_of};

use crate::placed::Placed;
use crate::rules::Rule;
use interleave::InterleaveSet;

/// Returns the label on the lesser module, or the first if both are on the same one.
fn lesser(least: Option<Placed>, placed: Placed) -> Option<Placed>
    ensures { result ≡ lesser module_of least (Some placed) }
{
    match least {
        Some(first) if first.module <= placed.module => Some(first),
        _ => Some(placed),
    }
}

/// Returns the lesser of two numbers.
fn lesser_number(least: Option<u32>, number: u32) -> Option<u32>
    ensures { result ≡ lesser (λ n. n) least (Some number) }
{
    match least {
        Some(first) if first <= number => Some(first),
        _ => Some(number),
    }
}

/// Returns the label on the least module that violates a rule, the first of several there.
pub fn least_breaking(rule: Rule, set: &InterleaveSet, labels: &[Placed]) -> Option<Placed>
    ensures { result ≡ least_where module_of (breaks_of rule set.now) labels.now }
{
    let mut least = None;
    for placed in labels {
        if rule.breaks(set, placed) {
            least = lesser(least, *placed);
        }
    }
    least
}

/// Returns the label on the least module from `from` on, the first of several there.
fn next_label(labels: &[Placed], from: u64) -> Option<Placed>
    ensures { result ≡ least_where module_of (λ p. nat_le from p.«module») labels.now }
{
    let mut least = None;
    for placed in labels {
        if from <= u64::from(placed.module) {
            least = lesser(least, *placed);
        }
    }
    least
}

/// Returns how many of the labels a module has.
fn count_on(labels: &[Placed], module: u32) -> usize
    ensures { result ≡ count_by (λ p. p.«module» == «module») labels.now }
{
    labels
        .iter()
        .filter(|placed| placed.module == module)
        .count()
}

/// Returns the least module with two of the labels. It makes one pass for each module that has one.
pub fn least_twice(labels: &[Placed]) -> Option<u32>
    ensures { result ≡ least_twice labels.now }
{
    let mut from = 0;
    while let Some(next) = next_label(labels, from) {
        if count_on(labels, next.module) > 1 {
            return Some(next.module);
        }
        from = u64::from(next.module) + 1;
    }
    None
}

/// Returns the least module of the set without a label.
pub fn least_missing(set: &InterleaveSet, labels: &[Placed]) -> Option<u32>
    ensures { result ≡ least_missing labels.now set.now }
{
    let mut least = None;
    for position in 0..set.ways() {
        let module = set.module_at(position);
        if count_on(labels, module) == 0 {
            least = lesser_number(least, module);
        }
    }
    least
}
