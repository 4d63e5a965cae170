ghost use Rattle.std.specs.Prelude.{◌≡◌, ◌≤◌, IfOk};
ghost use Rattle.label_index.specs.Area.{IsAreaSize};
ghost use Rattle.label_index.specs.Valid.{IsValid};

use label_codec::{Mode, read_label, write_label};
use label_index::{
    FreeList, IndexBlock, Side, area_index_size, current, read_index, slots_for, write_index,
};
use std::alloc::{AllocError, Global};
use std::test::Fail;
use uuid::Uuid;

/// The bytes of a freshly initialised block up to its free slots: side Zero with sequence number 3.
const ZERO: [u8; 73] = [
    0x4e, 0x41, 0x4d, 0x45, 0x53, 0x50, 0x41, 0x43, 0x45, 0x5f, 0x49, 0x4e, 0x44, 0x45, 0x58, 0x00,
    0x00, 0x00, 0x00, 0x01, 0x03, 0x00, 0x00, 0x00, 0x00, 0x00, 0x00, 0x00, 0x00, 0x00, 0x00, 0x00,
    0x00, 0x01, 0x00, 0x00, 0x00, 0x00, 0x00, 0x00, 0x00, 0x01, 0x00, 0x00, 0x00, 0x00, 0x00, 0x00,
    0x00, 0x02, 0x00, 0x00, 0x00, 0x00, 0x00, 0x00, 0x02, 0x00, 0x00, 0x00, 0x01, 0x00, 0x02, 0x00,
    0x33, 0x3a, 0x32, 0xd8, 0xa7, 0x83, 0x93, 0x27, 0x03,
];

/// An area of 1,024 bytes with both blocks, as `init` leaves it: side One has sequence number 2.
fn fresh_area() -> [u8; 1024] {
    let mut area = [0; 1024];
    area[..73].copy_from_slice(&ZERO);
    area[256..329].copy_from_slice(&ZERO);
    area[276] = 2;
    area[281] = 1;
    area[297] = 0;
    area[320..328].copy_from_slice(&[0x32, 0x3a, 0x32, 0xd8, 0x6c, 0x87, 0x93, 0x27]);
    area
}

#[test]
fn a_fresh_area_is_read(rt: HostRuntime) {
    let area = fresh_area();
    let zero = read_index(rt.alloc(), &area, Side::Zero);
    let one = read_index(rt.alloc(), &area, Side::One);
    assert_eq!(rt; current(&zero, &one), Some(Side::Zero));
    for (read, side, seq) in [(zero, Side::Zero, 3), (one, Side::One, 2)] {
        let Ok(block) = read else {
            assert!(rt; false, "the block isn't read");
            return;
        };
        assert_eq!(rt; (block.side, block.seq), (side, seq));
        assert_eq!(rt; (block.size, block.slots), (256, 2));
        assert_eq!(rt; block.free.as_slice(), [true, true].as_slice());
        assert_eq!(rt; block.free.count(), 2);
    }
}

/// Returns the block of a freshly initialised area of this size, with all slots free.
fn fresh_block(alloc: Global, area: u64, side: Side, seq: u32) -> Result<IndexBlock, AllocError>
    requires sized { IsAreaSize area }
    requires few { area ≤ 131072 }
    requires low { 1 ≤ seq }
    requires high { seq ≤ 3 }
    ensures valid { IfOk result (IsValid area) }
    ensures size { IfOk result (λ block. block.size ≡ 256) }
{
    let slots = slots_for(area);
    let free = FreeList::from_vec(vec![in alloc; true; slots as usize]?);
    Ok(IndexBlock {
        side,
        seq,
        size: area_index_size(area),
        slots,
        free,
    })
}

/// The blocks that `init` writes, over bytes that are all ones; and, of 510 slots in 131,072 bytes,
/// MySize, LabelOff, NSlot and the last byte of Free.
#[test]
fn blocks_are_written(rt: HostRuntime) -> Result<(), Fail> {
    let mut area = [0; 1024];
    area[..512].fill(0xff);
    let one = fresh_block(rt.alloc(), 1024, Side::One, 2)?;
    let zero = fresh_block(rt.alloc(), 1024, Side::Zero, 3)?;
    write_index(&mut area[256..512], &one);
    write_index(&mut area[..256], &zero);
    assert_eq!(rt; area, fresh_area());
    let mut block = [0xff; 256];
    let large = fresh_block(rt.alloc(), 131072, Side::Zero, 3)?;
    write_index(&mut block, &large);
    assert_eq!(rt; (block[32], block[33], block[48], block[49]), (0, 1, 0, 2));
    assert_eq!(rt; &block[56..60], [0xfe, 0x01, 0x00, 0x00].as_slice());
    assert_eq!(rt; &block[134..137], [0xff, 0x3f, 0x00].as_slice());
    Ok(())
}

/// A label as Linux 6.1 wrote it into slot 1, up to its reserved bytes, which are zero.
const LABEL: [u8; 160] = [
    0x10, 0x00, 0x00, 0x00, 0x00, 0x00, 0x40, 0x00, 0x80, 0x00, 0x00, 0x00, 0x00, 0x00, 0x00, 0x01,
    0x72, 0x61, 0x77, 0x2d, 0x61, 0x00, 0x00, 0x00, 0x00, 0x00, 0x00, 0x00, 0x00, 0x00, 0x00, 0x00,
    0x00, 0x00, 0x00, 0x00, 0x00, 0x00, 0x00, 0x00, 0x00, 0x00, 0x00, 0x00, 0x00, 0x00, 0x00, 0x00,
    0x00, 0x00, 0x00, 0x00, 0x00, 0x00, 0x00, 0x00, 0x00, 0x00, 0x00, 0x00, 0x00, 0x00, 0x00, 0x00,
    0x00, 0x00, 0x00, 0x00, 0x00, 0x00, 0x00, 0x00, 0x00, 0x00, 0x00, 0x00, 0x00, 0x00, 0x00, 0x00,
    0x00, 0x00, 0x00, 0x00, 0x01, 0x00, 0x00, 0x00, 0xdc, 0xb4, 0x12, 0x00, 0x12, 0x90, 0xba, 0x00,
    0x00, 0x02, 0x00, 0x00, 0x00, 0x00, 0x00, 0x00, 0x00, 0x00, 0x00, 0x00, 0x00, 0x00, 0x00, 0x00,
    0x00, 0x00, 0x00, 0x01, 0x00, 0x00, 0x00, 0x00, 0x01, 0x00, 0x00, 0x00, 0x00, 0x00, 0x00, 0x00,
    0x79, 0xd3, 0xf0, 0x66, 0xf3, 0xb4, 0x74, 0x40, 0xac, 0x43, 0x0d, 0x33, 0x18, 0xb7, 0x8c, 0xdb,
    0x00, 0x00, 0x00, 0x00, 0x00, 0x00, 0x00, 0x00, 0x00, 0x00, 0x00, 0x00, 0x00, 0x00, 0x00, 0x00,
];

/// Its Checksum, the last eight bytes.
const SUM: u64 = 0xc06923c7e6842c83;

/// The label that Linux wrote is read, and written again over bytes that are all ones.
#[test]
fn a_label_of_linux(rt: HostRuntime) {
    let mut linux = [0; 256];
    linux[..160].copy_from_slice(&LABEL);
    linux[248..].copy_from_slice(&SUM.to_le_bytes());
    let Ok(label) = read_label(&linux, 1) else {
        assert!(rt; false, "the label isn't read");
        return;
    };
    let uuid = Uuid::from_u128(0x10000000_0000_4000_8000_000000000001);
    assert_eq!(rt; label.uuid, uuid);
    assert_eq!(rt; label.name.bytes(), b"raw-a".as_slice());
    assert_eq!(rt; (label.flags, label.count, label.position), (0, 1, 0));
    assert_eq!(rt; (label.cookie, label.lba), (52512752653219036, 512));
    assert_eq!(rt; (label.dpa, label.raw), (0, 16777216));
    assert_eq!(rt; (label.slot, label.align, label.spa_cookie), (1, 0, 0));
    assert_eq!(rt; label.mode(), Mode::Raw);
    assert!(rt; !label.is_read_only() && !label.is_local() && !label.is_updating());
    let mut written = [0xff; 256];
    write_label(&mut written, &label);
    assert_eq!(rt; written, linux);
}
