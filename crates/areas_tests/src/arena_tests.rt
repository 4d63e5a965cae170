//! A chain of two arenas of 16 MiB.
ghost use Rattle.arena_layout.specs.Layout.{IsLayout};

use arena_layout::{Info, Layout, plan, write_info};
use arena_open::{
    CellKind, Chain, ChainRefused, OpenRefused, ReadChain, format_arena, open_chain, read_chain,
};
use cut_words::{CutWords, Fuse, WordSpace};
use nvd_media::ListChooser;
use nvd_words::word_at;
use std::alloc::{AllocError, Global};
use std::test::Fail;
use uuid::Uuid;

/// The first word of each arena: there are 512 words before the first one.
const FIRST: [u64; 2] = [512, 512 + 2_097_152];

/// The first word of the blocks, the map and the flog in each of them.
const DATA: u64 = 512;

const MAP: u64 = 16_625_664 / 8;

const FLOG: u64 = 16_756_736 / 8;

/// The UUID of the namespace, in every test.
fn parent() -> Uuid {
    Uuid::from_u128(2)
}

/// Returns the words of a space without pending words.
fn words_of(alloc: Global, space: CutWords) -> Vec<u64> {
    space.leave(&mut ListChooser::new(Vec::new(alloc)))
}

/// Formats an arena at a word. It takes exactly this many steps.
fn with_arena(alloc: Global, words: Vec<u64>, at: u64, layout: &Layout) -> Result<Vec<u64>, Fail>
    requires { IsLayout layout.now }
{
    let mut space = CutWords::new(alloc, words)?;
    if layout.size / 8 > space.count() || at > space.count() - layout.size / 8 {
        return Err(AllocError)?;
    }
    let uuid = Uuid::from_u128(1);
    let mut fuse = Fuse::after(38_912);
    format_arena(&mut space, &mut fuse, at, layout, &uuid, &parent())?;
    Ok(words_of(alloc, space))
}

/// Returns an info block that names an arena after this one.
#[tactic(auto, unfolding(arena_layout::specs::Info::is_version))]
fn first_block(layout: &Layout) -> [u8; 4096]
    requires { IsLayout layout.now }
{
    let mut bytes = [0; 4096];
    let info = Info {
        uuid: Uuid::from_u128(1),
        parent: parent(),
        flags: 0,
        major: 2,
        minor: 0,
        next: layout.size,
        layout: *layout,
    };
    write_info(&mut bytes, &info);
    bytes
}

fn set_word(words: &mut Vec<u64>, place: u64, value: u64) {
    if let Some(word) = words.get_mut(place as usize) {
        *word = value;
    }
}

/// Returns the words of the two arenas, with these words changed.
fn chained(alloc: Global, changes: &[(u8, u64, u64)]) -> Result<Vec<u64>, Fail> {
    let layout = plan(16 << 20, 512, 256)?;
    let mut words = vec![in alloc; 0; 4_194_816]?;
    for at in FIRST {
        words = with_arena(alloc, words, at, &layout)?;
    }
    let block = first_block(&layout);
    for k in 0..512 {
        set_word(&mut words, FIRST[0] + k, word_at(&block, 8 * k as usize));
    }
    for (arena, place, value) in changes {
        let first = if *arena == 0 { FIRST[0] } else { FIRST[1] };
        set_word(&mut words, first.saturating_add(*place), *value);
    }
    Ok(words)
}

/// Opens the chain with a fuse of `steps` steps, and returns how many are left.
fn open_both(
    alloc: Global,
    words: Vec<u64>,
    steps: u64,
) -> Result<(Result<Chain, ChainRefused>, Option<u64>), AllocError> {
    let mut space = CutWords::new(alloc, words)?;
    let mut fuse = Fuse::after(steps);
    let count = space.count();
    if count % 512 != 0 || count <= FIRST[0] || count > 1 << 52 {
        return Err(AllocError);
    }
    let chain = open_chain(alloc, &mut space, &mut fuse, FIRST[0], &parent());
    Ok((chain, fuse.left()))
}

/// Reads the chain without copying its words.
fn read_both(
    alloc: Global,
    words: Vec<u64>,
) -> Result<Result<ReadChain<CutWords>, ChainRefused>, AllocError> {
    let space = CutWords::new(alloc, words)?;
    let count = space.count();
    if count % 512 != 0 || count <= FIRST[0] || count > 1 << 52 {
        return Err(AllocError);
    }
    Ok(read_chain(alloc, space, FIRST[0], &parent()))
}

/// A sector's place, and its first and last word; `None` if it is bad or doesn't exist.
type Sector = (Option<(usize, u32)>, Option<(u64, u64)>);

fn opened_sector(chain: &Chain, sector: u64) -> Sector {
    let mut words = [7; 64];
    if sector >= chain.sectors() || chain.sector_size(sector) != Some(512) {
        return (None, None);
    }
    match chain.read(sector, &mut words) {
        CellKind::Bytes => (chain.locate(sector), Some((words[0], words[63]))),
        CellKind::Bad => (chain.locate(sector), None),
    }
}

fn read_sector(chain: &ReadChain<CutWords>, sector: u64) -> Sector {
    let mut words = [7; 64];
    if sector >= chain.sectors() || chain.sector_size(sector) != Some(512) {
        return (None, None);
    }
    match chain.read(sector, &mut words) {
        CellKind::Bytes => (chain.locate(sector), Some((words[0], words[63]))),
        CellKind::Bad => (chain.locate(sector), None),
    }
}

/// In each arena lane 0 has a pending move of sector 9 from block 9 to 32,202. In arena 1 the
/// sectors 0 to 3 are normal, bad, zero and initial.
fn with_moves(alloc: Global) -> Result<Vec<u64>, Fail> {
    let mut changes = vec![in alloc; (1, MAP, 0x4000_0001_C000_0000), (1, MAP + 1, 0x8000_0002)]?;
    for arena in [0, 1] {
        changes.push((arena, FLOG + 2, 9 | 9 << 32))?;
        changes.push((arena, FLOG + 3, 32_202 | 2 << 32))?;
    }
    for block in [0, 1, 2, 3, 9, 32_202] {
        changes.push((1, DATA + 64 * block, block + 1))?;
        changes.push((1, DATA + 64 * block + 63, block + 2))?;
    }
    chained(alloc, &changes)
}

#[test]
fn moves_are_made_good(rt: HostRuntime) -> Result<(), Fail> {
    let words = with_moves(rt.alloc())?;
    let (cut, left) = open_both(rt.alloc(), words.clone()?, 3)?;
    let refused = cut.err().map(|it| (it.arena, it.fault));
    assert_eq!(rt; refused, Some((1, OpenRefused::PowerCut)));
    assert_eq!(rt; left, Some(0));
    let (opened, left) = open_both(rt.alloc(), words.clone()?, 5)?;
    assert_eq!(rt; (opened?.arenas().len(), left), (2, Some(1)));
    let read = read_both(rt.alloc(), words)??;
    assert_eq!(rt; read.len(), 2);
    if read.len() == 2 {
        assert_eq!(rt; (read.info(1).layout.external, read.moves(1)), (32_202, 1));
    }
    Ok(())
}

#[test]
fn sectors_run_on_from_arena_to_arena(rt: HostRuntime) -> Result<(), Fail> {
    let words = with_moves(rt.alloc())?;
    let read = read_both(rt.alloc(), words.clone()?)??;
    let opened = open_both(rt.alloc(), words, 4)?.0?;
    for (sector, place, ends) in [
        (9, Some((0, 9)), Some((0, 0))),
        (32_202, Some((1, 0)), Some((1, 2))),
        (32_203, Some((1, 1)), None),
        (32_204, Some((1, 2)), Some((0, 0))),
        (32_205, Some((1, 3)), Some((4, 5))),
        (32_211, Some((1, 9)), Some((32_203, 32_204))),
        (64_404, None, None),
    ] {
        assert_eq!(rt; opened_sector(&opened, sector), (place, ends));
        assert_eq!(rt; read_sector(&read, sector), (place, ends));
    }
    Ok(())
}
