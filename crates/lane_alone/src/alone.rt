//! The three runs of words that a write changes.
ghost use Rattle.std.specs.Prelude.{◌≡◌, ◌+◌, ◌/◌, ◌<◌, ◌≤◌, length};
ghost use Rattle.flog.specs.Group.{words_of_half};
ghost use Rattle.arena_open.specs.Moves.{IsOpenState};
ghost use Rattle.lane_alone.specs.Alone.{IsWritten};
ghost use Rattle.lane_alone.specs.Lone.{block_now, block_place, half_place, lane_zero, lone_words, map_place, move_half, moved_word, with_run};

use arena_open::{ArenaState, LaneState};
use flog::{Half, half_words, next_half};
use map_table::{entry, entry_in, normal, with_entry};

/// Returns the lane that writes.
fn lane_zero(state: &ArenaState) -> LaneState
    requires { IsOpenState state.now }
    ensures { result ≡ lane_zero state.now }
{
    state.lanes.as_slice()[0]
}

/// Returns the place of a sector's map word.
fn map_place(state: &ArenaState, sector: u32) -> u64
    requires state { IsOpenState state.now }
    requires sector { sector < state.now.info.layout.external }
    ensures place { result ≡ map_place state.now sector }
    ensures inside { result < length state.now.words }
{
    state.info.layout.map_off / 8 + u64::from(sector) / 2
}

/// Returns the first word of the lane's free block.
fn block_place(state: &ArenaState) -> u64
    requires { IsOpenState state.now }
    ensures place { result ≡ block_place state.now }
    ensures inside { result + state.now.info.layout.sector / 8 ≤ length state.now.words }
{
    let layout = &state.info.layout;
    let free = lane_zero(state).free;
    layout.data_off / 8 + u64::from(free) * (u64::from(layout.inner) / 8)
}

/// Returns the first word of the lane's half that isn't current.
fn half_place(state: &ArenaState) -> u64
    requires { IsOpenState state.now }
    ensures place { result ≡ half_place state.now }
    ensures inside { result + 2 ≤ length state.now.words }
{
    let side = lane_zero(state).group.side;
    state.info.layout.flog_off / 8 + state.half_at(1 - side)
}

/// Returns the log's half for the move: the sector gets the lane's free block.
fn move_half(state: &ArenaState, sector: u32) -> Half
    requires state { IsOpenState state.now }
    requires sector { sector < state.now.info.layout.external }
    ensures half { result ≡ move_half state.now sector }
{
    let lane = lane_zero(state);
    let word = state.words.as_slice()[map_place(state, sector) as usize];
    let old = entry(entry_in(word, sector), sector).block;
    next_half(&lane.group, sector, old, lane.free)
}

/// Returns the sector's map word with the normal entry of the lane's free block.
fn moved_word(state: &ArenaState, sector: u32) -> u64
    requires state { IsOpenState state.now }
    requires sector { sector < state.now.info.layout.external }
    ensures { result ≡ moved_word state.now sector }
{
    let word = state.words.as_slice()[map_place(state, sector) as usize];
    with_entry(word, sector, normal(lane_zero(state).free))
}

/// Writes values from word `at` on.
fn put_run(words: &mut [u64], at: u64, values: &[u64])
    requires { at + length values.now ≤ length words.old }
    ensures run { words.new ≡ with_run words.old at values.now }
    ensures length { length words.new ≡ length words.old }
{
    let first = at as usize;
    words[first..first + values.len()].copy_from_slice(values);
}

/// Returns the two words of the log's half for the move.
fn move_words(state: &ArenaState, sector: u32) -> [u64; 2]
    requires state { IsOpenState state.now }
    requires sector { sector < state.now.info.layout.external }
    ensures { result ≡ words_of_half (move_half state.now sector) }
{
    half_words(&move_half(state, sector))
}

/// Changes the three runs of words.
fn lone_words(state: ArenaState, sector: u32, value: &[u64]) -> Vec<u64>
    requires state { IsOpenState state }
    requires sector { sector < state.info.layout.external }
    requires words { length value.now ≡ state.info.layout.sector / 8 }
    ensures { result.items ≡ lone_words state sector value.now }
{
    let block_at = block_place(&state);
    let half_at = half_place(&state);
    let map_at = map_place(&state, sector) as usize;
    let half = move_words(&state, sector);
    let word = moved_word(&state, sector);
    let mut words = state.words.into_vec();
    put_run(&mut words, block_at, value);
    put_run(&mut words, half_at, &half);
    words[map_at] = word;
    words
}

/// Writes a sector of an arena through its log, in the list of words that the state has.
///
/// The value fills the free block of lane 0, the lane's log names the move, and the map switches the
/// sector to that block. The sector's old block is the lane's free one then. The call takes no
/// memory and always succeeds.
///
/// The state must be as [`open_arena`](arena_open::open_arena) returns it, the sector must exist,
/// and `value` must have as many words as a sector.
pub fn write_alone(state: ArenaState, sector: u32, value: &[u64]) -> Vec<u64>
    requires state { IsOpenState state }
    requires sector { sector < state.info.layout.external }
    requires words { length value.now ≡ state.info.layout.sector / 8 }
    ensures words { result.items ≡ lone_words state sector value.now }
    ensures written { IsWritten state sector value.now result.items }
{
    lone_words(state, sector, value)
}
