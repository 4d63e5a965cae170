use arena_layout::{plan, read_info, write_info};
use flog::{Group, Half, half_words, next_half, read_group};
use map_table::{Kind, MapEntry, check_blocks, entry, entry_in, normal, with_entry, zero};
use std::alloc::{AllocError, Global};
use std::test::Fail;
use uuid::Uuid;

/// Encodes a half in two words, from its four fields as they are in memory.
fn pair(lba: u32, old: u32, new: u32, seq: u32) -> [u64; 2] {
    [
        u64::from(lba) | u64::from(old) << 32,
        u64::from(new) | u64::from(seq) << 32,
    ]
}

fn group(a: [u64; 2], b: [u64; 2]) -> [u64; 8] {
    [a[0], a[1], b[0], b[1], 0, 0, 0, 0]
}

/// Groups that Linux 6.1 wrote, with their numbers of sectors and blocks, and the current half.
#[test]
fn flog_groups_of_linux(rt: HostRuntime) {
    let overwritten = group(pair(5000, 5000, 64715, 3), pair(9, 64715, 2, 2));
    let fresh = group(pair(1, 64717, 64717, 1), pair(0, 0, 0, 0));
    let other = group(pair(8, 8, 1000, 3), pair(7, 1000, 1, 2));
    for (words, external, internal, lba, old, new, seq) in [
        (overwritten, 64716, 64972, 5000, 5000, 64715, 3),
        (fresh, 64716, 64972, 1, 64717, 64717, 1),
        (other, 3829, 4085, 8, 8, 1000, 3),
    ] {
        let half = Half { lba, old, new, seq };
        assert_eq!(rt;
            read_group(&words, external, internal),
            Ok(Group { side: 0, half })
        );
        if old < 1 << 30 && new < 1 << 30 {
            assert_eq!(rt; half_words(&half), [words[0], words[1]]);
        }
    }
}

#[test]
fn flog_next_half(rt: HostRuntime) -> Result<(), Fail> {
    let words = group(pair(1, 4, 4, 1), pair(2, 5, 5, 3));
    let read = read_group(&words, 3, 6).map_err(|_| "refused")?;
    assert_eq!(rt; (read.side, read.half.seq), (0, 1));
    if read.half.seq == 1 {
        let next = Half {
            lba: 2,
            old: 4,
            new: 5,
            seq: 2,
        };
        assert_eq!(rt; next_half(&read, 2, 4, 5), next);
    }
    Ok(())
}

#[test]
fn map_entries_and_words(rt: HostRuntime) {
    for (word, kind, block) in [
        (0xC000_0005u32, Kind::Normal, 5u32),
        (0x8000_0005, Kind::Zero, 5),
        (0x4000_0005, Kind::Bad, 5),
        (5, Kind::Initial, 7),
        (0xFFFF_FFFF, Kind::Normal, 0x3FFF_FFFF),
    ] {
        assert_eq!(rt; entry(word, 7), MapEntry { kind, block });
    }
    assert_eq!(rt; (normal(5), zero(5)), (0xC000_0005, 0x8000_0005));
    let word = 0xC000_0002_8000_0001u64;
    for (sector, found, changed) in [
        (6, 0x8000_0001u32, 0xC000_0002_C000_0009u64),
        (7, 0xC000_0002, 0xC000_0009_8000_0001),
    ] {
        assert_eq!(rt; entry_in(word, sector), found);
        assert_eq!(rt; with_entry(word, sector, 0xC000_0009), changed);
    }
}

/// The map of an arena of 3,829 sectors of 4,096 bytes, with the entries that Linux 6.1 had written,
/// and the free blocks of its 256 lanes: lane 0 freed block 8, each other lane has its first block.
fn linux_map(alloc: Global) -> Result<(Vec<u32>, Vec<u32>), AllocError> {
    let mut map = vec![in alloc; 0u32; 3829]?;
    for (sector, word) in [
        (0usize, 0xC000_0EF5u32),
        (1, 0xC000_0000),
        (7, 0xC000_0001),
        (8, 0xC000_03E8),
        (500, 0xC000_0007),
        (1000, 0xC000_01F4),
    ] {
        if let Some(place) = map.get_mut(sector) {
            *place = word;
        }
    }
    let mut free = vec![in alloc; 8u32]?;
    for block in 3830u32..4085 {
        free.push(block)?;
    }
    Ok((map, free))
}

#[test]
fn map_of_linux(rt: HostRuntime) -> Result<(), Fail> {
    let (map, free) = linux_map(rt.alloc())?;
    assert_eq!(rt; (map.len(), free.len()), (3829, 256));
    assert_eq!(rt; check_blocks(rt.alloc(), &map, &free, 4085), Ok(()));
    for (sector, word) in (0u32..3829).zip(map.iter()) {
        let read = entry(*word, sector);
        if read.kind == Kind::Normal && read.block < 1 << 30 {
            assert_eq!(rt; normal(read.block), *word);
        } else {
            assert_eq!(rt; *word, 0);
        }
    }
    Ok(())
}

/// The first 120 bytes of the info blocks that Linux 6.1 wrote, of arenas of 32 MiB and of 16 MiB.
/// All other bytes but the checksum's are zero.
const FIRST: [u8; 120] = [
    0x42, 0x54, 0x54, 0x5f, 0x41, 0x52, 0x45, 0x4e, 0x41, 0x5f, 0x49, 0x4e, 0x46, 0x4f, 0x00, 0x00,
    0x79, 0x86, 0x2a, 0x64, 0x27, 0x99, 0x47, 0x60, 0xbb, 0x98, 0xa9, 0x7c, 0x74, 0x3c, 0x01, 0x14,
    0x20, 0x00, 0x00, 0x00, 0x00, 0x00, 0x40, 0x00, 0x80, 0x00, 0x00, 0x00, 0x00, 0x00, 0x00, 0x02,
    0x00, 0x00, 0x00, 0x00, 0x02, 0x00, 0x00, 0x00, 0x00, 0x02, 0x00, 0x00, 0xcc, 0xfc, 0x00, 0x00,
    0x00, 0x02, 0x00, 0x00, 0xcc, 0xfd, 0x00, 0x00, 0x00, 0x01, 0x00, 0x00, 0x00, 0x10, 0x00, 0x00,
    0x00, 0x00, 0x00, 0x00, 0x00, 0x00, 0x00, 0x00, 0x00, 0x10, 0x00, 0x00, 0x00, 0x00, 0x00, 0x00,
    0x00, 0xb0, 0xfb, 0x01, 0x00, 0x00, 0x00, 0x00, 0x00, 0xb0, 0xff, 0x01, 0x00, 0x00, 0x00, 0x00,
    0x00, 0xf0, 0xff, 0x01, 0x00, 0x00, 0x00, 0x00,
];

const SECOND: [u8; 120] = [
    0x42, 0x54, 0x54, 0x5f, 0x41, 0x52, 0x45, 0x4e, 0x41, 0x5f, 0x49, 0x4e, 0x46, 0x4f, 0x00, 0x00,
    0xa1, 0xb9, 0x55, 0xb8, 0xaf, 0xba, 0x45, 0x3d, 0x9d, 0xa9, 0x50, 0x65, 0x90, 0x5f, 0xbf, 0x62,
    0x30, 0x00, 0x00, 0x00, 0x00, 0x00, 0x40, 0x00, 0x80, 0x00, 0x00, 0x00, 0x00, 0x00, 0x00, 0x03,
    0x00, 0x00, 0x00, 0x00, 0x02, 0x00, 0x00, 0x00, 0x00, 0x10, 0x00, 0x00, 0xf5, 0x0e, 0x00, 0x00,
    0x00, 0x10, 0x00, 0x00, 0xf5, 0x0f, 0x00, 0x00, 0x00, 0x01, 0x00, 0x00, 0x00, 0x10, 0x00, 0x00,
    0x00, 0x00, 0x00, 0x00, 0x00, 0x00, 0x00, 0x00, 0x00, 0x10, 0x00, 0x00, 0x00, 0x00, 0x00, 0x00,
    0x00, 0x70, 0xff, 0x00, 0x00, 0x00, 0x00, 0x00, 0x00, 0xb0, 0xff, 0x00, 0x00, 0x00, 0x00, 0x00,
    0x00, 0xf0, 0xff, 0x00, 0x00, 0x00, 0x00, 0x00,
];

const FIRST_SUM: u64 = 0x6e0b_cb9c_593d_ba13;

const SECOND_SUM: u64 = 0xb631_52a4_bfce_4323;

const PARENT: u128 = 0x2000_0000_0000_4000_8000_0000_0000_0002;

/// Returns an info block with a checksum.
fn block_of(head: &[u8; 120], sum: u64) -> [u8; 4096] {
    let mut block = [0; 4096];
    block[..120].copy_from_slice(head);
    block[4088..].copy_from_slice(&sum.to_le_bytes());
    block
}

#[test]
fn info_blocks_of_linux(rt: HostRuntime) -> Result<(), Fail> {
    let second = 0x3000_0000_0000_4000_8000_0000_0000_0003;
    for (head, sum, parent, size, sector) in [
        (FIRST, FIRST_SUM, PARENT, 33_554_432u64, 512),
        (SECOND, SECOND_SUM, second, 16_777_216, 4096),
    ] {
        let block = block_of(&head, sum);
        let info = read_info(&block, &Uuid::from_u128(parent), size).map_err(|_| "refused")?;
        assert_eq!(rt; plan(size, sector, 256), Ok(info.layout));
        assert_eq!(rt; info.next, 0);
        let mut again = [0xff; 4096];
        write_info(&mut again, &info);
        assert!(rt; again == block);
    }
    Ok(())
}

/// What Linux's alloc_arena computes for whole MiB: the block size, the number of blocks, the map's
/// offset.
#[test]
fn plans_of_linux(rt: HostRuntime) {
    for (mib, sector, want) in [
        (16u64, 512u32, (512u32, 32458u32, 16_625_664u64)),
        (16, 520, (576, 28876, 16_642_048)),
        (16, 528, (576, 28876, 16_642_048)),
        (16, 4096, (4096, 4085, 16_740_352)),
        (16, 4104, (4160, 4022, 16_740_352)),
        (17, 4160, (4160, 4274, 17_788_928)),
        (17, 4224, (4224, 4209, 17_788_928)),
        (32, 512, (512, 64972, 33_271_808)),
        (32, 520, (576, 57803, 33_300_480)),
        (32, 4224, (4224, 7929, 33_501_184)),
    ] {
        let planned = plan(mib << 20, sector, 256);
        let found = planned.map(|l| (l.inner, l.internal, l.map_off));
        assert_eq!(rt; found, Ok(want), "{mib} MiB, {sector}");
    }
}
