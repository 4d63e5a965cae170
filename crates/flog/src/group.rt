ghost use Rattle.std.specs.List.{list_all};
ghost use Rattle.std.specs.Prelude.{◌≡◌, ◌==◌, ◌<◌, ◌≤◌, IsTrue, IfOk};
ghost use Rattle.nvd_words.specs.Ring.{is_newer, successor_of};
ghost use Rattle.flog.specs.Group.{half_in, place_of, is_padded, are_ordered, out_of_range, current_side, group_reading, IsNewerHalf, PacksBack, BecomesCurrent};

use crate::half::{Half, half_of};
use nvd_words::{seq_newer, seq_next};

/// A lane's current half, and the side it is on.
#[derive(Clone, Copy, Debug, PartialEq, Eq)]
pub struct Group {
    /// 0 or 1.
    pub side: u32,
    pub half: Half,
}

/// Why eight words aren't a valid group.
#[derive(Clone, Copy, Debug, PartialEq, Eq)]
pub enum FlogFault {
    /// A byte after the two halves isn't zero.
    Padding,
    /// A sequence number is above 3, or neither half is newer than the other: `a` is that of side
    /// 0, `b` that of side 1.
    Sequences { a: u32, b: u32 },
    /// In the current half, the first of OldMap, NewMap and the Lba of a move that is out of range.
    Range { value: u32 },
}

/// The first word of side 1's half.
const SECOND_HALF: usize = 2;
/// The first word after the halves.
const PADDING: usize = 4;

/// Returns the first word of a side's half. No other code knows where the halves are.
#[tactic(auto, unfolding(crate::specs::Group::place_of))]
fn place_of(side: u32) -> usize
    requires { side < 2 }
    ensures place { result ≡ place_of side }
    ensures inside { result ≤ 2 }
{
    if side == 0 { 0 } else { SECOND_HALF }
}

fn half_in(words: &[u64; 8], side: u32) -> Half
    requires { side < 2 }
    ensures { result ≡ half_in words.now side }
{
    let place = place_of(side);
    half_of(words[place], words[place + 1])
}

fn are_zero(words: &[u64]) -> bool
    ensures { result ≡ list_all (λ word. word == 0) words.now }
{
    words.iter().all(|word| *word == 0)
}

#[tactic(auto, unfolding(crate::specs::Group::is_padded))]
fn is_padded(words: &[u64; 8]) -> bool
    ensures { result ≡ is_padded words.now }
{
    are_zero(&words[PADDING..])
}

#[tactic(auto, unfolding(crate::specs::Group::are_ordered))]
fn are_ordered(a: u32, b: u32) -> bool
    ensures { result ≡ are_ordered a b }
{
    a <= 3 && b <= 3 && (seq_newer(a, b) || seq_newer(b, a))
}

#[tactic(auto, unfolding(crate::specs::Group::out_of_range))]
fn out_of_range(half: &Half, external: u32, internal: u32) -> Option<u32>
    ensures { result ≡ out_of_range external internal half.now }
{
    if half.old >= internal {
        return Some(half.old);
    }
    if half.new >= internal {
        return Some(half.new);
    }
    if half.old != half.new && half.lba >= external {
        return Some(half.lba);
    }
    None
}

#[tactic(auto, unfolding(crate::specs::Group::current_side))]
fn current_side(words: &[u64; 8]) -> u32
    ensures side { result ≡ current_side words.now }
    ensures small { result < 2 }
{
    if seq_newer(half_in(words, 0).seq, half_in(words, 1).seq) {
        1
    } else {
        0
    }
}

#[tactic(auto, using(nvd_words::proofs::Checks::faults))]
fn read_current(words: &[u64; 8], external: u32, internal: u32) -> Result<Group, FlogFault>
    ensures { result ≡ group_reading words.now external internal }
{
    if !is_padded(words) {
        return Err(FlogFault::Padding);
    }
    let a = half_in(words, 0).seq;
    let b = half_in(words, 1).seq;
    if !are_ordered(a, b) {
        return Err(FlogFault::Sequences { a, b });
    }
    let side = current_side(words);
    let half = half_in(words, side);
    if let Some(value) = out_of_range(&half, external, internal) {
        return Err(FlogFault::Range { value });
    }
    Ok(Group { side, half })
}

/// Reads a lane's group in an arena of `external` sectors and `internal` blocks, and returns its
/// current half.
///
/// It refuses with the first of Padding, Sequences and Range that applies. A half that makes no
/// move (OldMap and NewMap are equal) may have any Lba.
pub fn read_group(words: &[u64; 8], external: u32, internal: u32) -> Result<Group, FlogFault>
    ensures group { result ≡ group_reading words.now external internal }
    ensures newer { IfOk result (IsNewerHalf words.now) }
    ensures packs { IfOk result (PacksBack words.now) }
{
    read_current(words, external, internal)
}

/// Returns the half that follows a group's current one: this move, with the next sequence number.
///
/// The group's sequence number must be 1, 2 or 3, as it is in each group that [`read_group`]
/// returns.
pub fn next_half(group: &Group, lba: u32, old: u32, new: u32) -> Half
    requires low { 1 ≤ group.now.half.seq }
    requires high { group.now.half.seq ≤ 3 }
    ensures half { result ≡ record { lba = lba; old = old; new = new; seq = successor_of group.now.half.seq } }
    ensures newer { IsTrue (is_newer group.now.half.seq result.seq) }
    ensures becomes_current { BecomesCurrent group.now result }
{
    Half {
        lba,
        old,
        new,
        seq: seq_next(group.half.seq),
    }
}
