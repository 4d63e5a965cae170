//! The words of a new arena's areas, each written before the next one.
ghost use Rattle.std.specs.Prelude.{◌≡◌, ◌+◌, ◌*◌, ◌/◌, ◌%◌, ◌^◌, ◌<◌, ◌≤◌, ℕ, List, length, slice_index, is_ok, OnOk};
ghost use Rattle.cut_words.specs.Fuses.{Makes};
ghost use Rattle.cut_words.specs.WordBytes.{words_in};
ghost use Rattle.arena_open.specs.Writes.{IsSettled, run_at, write_steps};
ghost use Rattle.arena_open.specs.Areas.{new_entry, new_group_word, new_log, new_log_word, new_map, new_map_word};

use cut_words::{Fuse, PowerCut, WordSpace, write_word};
use map_table::zero;
use nvd_words::word_at;

/// The words of an area, by index.
pub(crate) trait AreaWords {
    ghost values: { Self → List ℕ };

    ghost sound: { Self → Type 0 };

    /// Returns how many there are.
    fn count(&self) -> u64
        requires { sound self.now }
        ensures { result ≡ length (values self.now) };

    /// Returns one of them.
    fn word(&self, i: u64) -> u64
        requires sound { sound self.now }
        requires inside { i < length (values self.now) }
        ensures { result ≡ slice_index (values self.now) i };
}

/// The map area, `count` words: each sector's entry is Zero and has the block of its own number.
#[derive(Drop)]
pub(crate) struct NewMap {
    pub external: u32,
    pub count: u64,
}

/// The log area, `count` words: each lane has the block of its own number after the sectors'
/// blocks.
#[derive(Drop)]
pub(crate) struct NewLog {
    pub external: u32,
    pub lanes: u32,
    pub count: u64,
}

/// An info block.
#[derive(Drop)]
pub(crate) struct InfoBlock {
    pub bytes: [u8; 4096],
}

fn new_entry(external: u32, sector: u64) -> u32
    requires { external ≤ 2 ^ 30 }
    ensures { result ≡ new_entry external sector }
{
    if sector < u64::from(external) {
        zero(sector as u32)
    } else {
        0
    }
}

impl AreaWords for NewMap {
    ghost values = { λ map. new_map map.external map.count };

    ghost sound = { λ map. (map.external ≤ 2 ^ 30) × (map.count < 2 ^ 60) };

    fn count(&self) -> u64 {
        self.count
    }

    fn word(&self, i: u64) -> u64 {
        let low = new_entry(self.external, 2 * i);
        let high = new_entry(self.external, 2 * i + 1);
        u64::from(low) + (u64::from(high) << 32)
    }
}

/// Returns word k of a lane's group.
fn new_group_word(external: u32, lane: u32, k: u64) -> u64
    requires external { external ≤ 2 ^ 30 }
    requires lane { lane < 256 }
    ensures { result ≡ new_group_word external lane k }
{
    let block = u64::from(external) + u64::from(lane);
    match k {
        0 => u64::from(lane) + (block << 32),
        1 => block + (1 << 32),
        _ => 0,
    }
}

impl AreaWords for NewLog {
    ghost values = { λ log. new_log log.external log.lanes log.count };

    ghost sound = { λ log. (log.external ≤ 2 ^ 30) × (log.lanes ≤ 256) };

    fn count(&self) -> u64 {
        self.count
    }

    fn word(&self, i: u64) -> u64 {
        if i / 8 < u64::from(self.lanes) {
            new_group_word(self.external, (i / 8) as u32, i % 8)
        } else {
            0
        }
    }
}

impl AreaWords for InfoBlock {
    ghost values = { λ block. words_in block.bytes };

    ghost sound = { λ block. length (words_in block.bytes) ≡ 512 };

    fn count(&self) -> u64 {
        512
    }

    fn word(&self, i: u64) -> u64 {
        word_at(&self.bytes, 8 * i as usize)
    }
}

/// Writes the words of an area from `base` on. It stores and flushes each word before the next one.
///
/// No word of the space may be pending. It returns `PowerCut` exactly if fewer steps are left than
/// two for each word. Then it has made as many as there were.
pub(crate) fn write_area<W: WordSpace, A: AreaWords>(
    space: &mut W,
    fuse: &mut Fuse,
    base: u64,
    area: &A,
) -> Result<(), PowerCut>
    requires sound { A.sound area.now }
    requires inside { base + length (A.values area.now) ≤ length (W.words space.old).kept }
    requires small { length (W.words space.old).kept < 2 ^ 64 }
    requires settled { IsSettled (W.words space.old) }
    ensures made { Makes (W.words space.old) (W.words space.new) fuse.old fuse.new (write_steps (run_at base (A.values area.now))) (is_ok result) }
    ensures beside { W.beside space.new ≡ W.beside space.old }
    ensures count { length (W.words space.new).kept ≡ length (W.words space.old).kept }
    ensures settles { OnOk result (IsSettled (W.words space.new)) }
{
    for i in 0..area.count() {
        write_word(space, fuse, base + i, area.word(i))?;
    }
    Ok(())
}
