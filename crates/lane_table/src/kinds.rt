//! The kinds of step at the table, each named as the line of the algorithm that it is. These types
//! are for proofs only. What a kind tells its seat is the word of `specs/Told.antt` that it names.
use crate::table::{Call, View};
use atomic_table::{Join, Play, Split};

// ---- seats: these change no word

/// A lane that waits gets a seat.
pub struct SplitSeat;

impl Split<View> for SplitSeat {
    ghost use Rattle.lane_table.specs.Law.{dealt, next_seat};

    ghost left = { dealt };

    ghost right = { next_seat };
}

/// A seat comes that collects what the lanes' seats know.
pub struct KeeperComes;

impl Play<Call, View> for KeeperComes {
    ghost use Rattle.lane_table.specs.Told.{comes};

    ghost then = { comes };
}

/// A lane's seat is handed in.
pub struct JoinSeat;

impl Join<View> for JoinSeat {
    ghost use Rattle.lane_table.specs.Law.{gathered, spent};

    ghost both = { gathered };

    ghost spent = { spent };
}

// ---- passes: further uses of the two kinds above, which change no word either

/// Lane 0's seat makes the pass of the next session.
pub struct MakePass;

impl Split<View> for MakePass {
    ghost use Rattle.lane_table.specs.Law.{left_to_make, made_pass};

    ghost left = { left_to_make };

    ghost right = { made_pass };
}

/// A lane gives its pass away.
pub struct GivePass;

impl Split<View> for GivePass {
    ghost use Rattle.lane_table.specs.Law.{without_pass, given_pass};

    ghost left = { without_pass };

    ghost right = { given_pass };
}

/// A lane takes a pass.
pub struct TakePass;

impl Join<View> for TakePass {
    ghost use Rattle.lane_table.specs.Law.{with_pass, spent};

    ghost both = { with_pass };

    ghost spent = { spent };
}

// ---- a write

/// The lane's own reader word is loaded. No line of the algorithm: the view learns that a write
/// begins.
pub struct WriteBegin;

impl Play<Call, View> for WriteBegin {
    ghost use Rattle.lane_table.specs.Told.{write_begin};

    ghost then = { write_begin };
}

/// The reader word of another lane is loaded.
pub struct RttScan;

impl Play<Call, View> for RttScan {
    ghost use Rattle.lane_table.specs.Told.{rtt_scan};

    ghost then = { rtt_scan };
}

/// A word of the call is stored in the free block.
pub struct DataStore;

impl Play<Call, View> for DataStore {
    ghost use Rattle.lane_table.specs.Told.{data_store};

    ghost then = { data_store };
}

/// A word of the free block is kept.
pub struct DataKeep;

impl Play<Call, View> for DataKeep {
    ghost use Rattle.lane_table.specs.Told.{data_keep};

    ghost then = { data_keep };
}

/// One compare-and-exchange of the lock of the sector's map word.
pub struct LockTake;

impl Play<Call, View> for LockTake {
    ghost use Rattle.lane_table.specs.Told.{lock_take};

    ghost then = { lock_take };
}

/// The map word is loaded under its lock.
pub struct MapLoad;

impl Play<Call, View> for MapLoad {
    ghost use Rattle.lane_table.specs.Told.{map_load};

    ghost then = { map_load };
}

/// Word A of the half that isn't current is stored.
pub struct FlogAStore;

impl Play<Call, View> for FlogAStore {
    ghost use Rattle.lane_table.specs.Told.{flog_a_store};

    ghost then = { flog_a_store };
}

/// Word A is kept.
pub struct FlogAKeep;

impl Play<Call, View> for FlogAKeep {
    ghost use Rattle.lane_table.specs.Told.{flog_a_keep};

    ghost then = { flog_a_keep };
}

/// Word B is stored, with the next sequence number.
pub struct FlogBStore;

impl Play<Call, View> for FlogBStore {
    ghost use Rattle.lane_table.specs.Told.{flog_b_store};

    ghost then = { flog_b_store };
}

/// Word B is kept: its half is current from then on.
pub struct FlogBKeep;

impl Play<Call, View> for FlogBKeep {
    ghost use Rattle.lane_table.specs.Told.{flog_b_keep};

    ghost then = { flog_b_keep };
}

/// The map word is stored: the write stands in the history.
pub struct MapStore;

impl Play<Call, View> for MapStore {
    ghost use Rattle.lane_table.specs.Told.{map_store};

    ghost then = { map_store };
}

/// The map word is kept.
pub struct MapKeep;

impl Play<Call, View> for MapKeep {
    ghost use Rattle.lane_table.specs.Told.{map_keep};

    ghost then = { map_keep };
}

/// The lock is given back.
pub struct LockFree;

impl Play<Call, View> for LockFree {
    ghost use Rattle.lane_table.specs.Told.{lock_free};

    ghost then = { lock_free };
}

// ---- a read

/// A word of the lane's own log group is exchanged, 0 by 0. No line of the algorithm: the view learns
/// the read's call.
pub struct ReadBegin;

impl Play<Call, View> for ReadBegin {
    ghost use Rattle.lane_table.specs.Told.{read_begin};

    ghost then = { read_begin };
}

/// The map word is loaded. If the entry says zeros or bad, the read stands in the history and is
/// answered.
pub struct MapLook;

impl Play<Call, View> for MapLook {
    ghost use Rattle.lane_table.specs.Told.{map_look};

    ghost then = { map_look };
}

/// The block is stored in the lane's own reader word.
pub struct RttSet;

impl Play<Call, View> for RttSet {
    ghost use Rattle.lane_table.specs.Told.{rtt_set};

    ghost then = { rtt_set };
}

/// The map word is loaded again. If the entry is the same, the read stands in the history.
pub struct MapCheck;

impl Play<Call, View> for MapCheck {
    ghost use Rattle.lane_table.specs.Told.{map_check};

    ghost then = { map_check };
}

/// A word of the block is loaded.
pub struct DataLoad;

impl Play<Call, View> for DataLoad {
    ghost use Rattle.lane_table.specs.Told.{data_load};

    ghost then = { data_load };
}

/// The lane's own reader word is cleared.
pub struct RttClear;

impl Play<Call, View> for RttClear {
    ghost use Rattle.lane_table.specs.Told.{rtt_clear};

    ghost then = { rtt_clear };
}
