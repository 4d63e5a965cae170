//! The table that lanes share: the rule of its words, and what each seat knows.
use arena_open::LaneState;
use atomic_table::{Seat, Shared, Table, TableRule};
use lane_core::{Entry, Lane, Shape};
use nvd_words::{Items, Tag};
use std::alloc::Global;
use std::snapshot::Snapshot;

/// A call of a session on a sector. A lane learns it in the step that tells it: LockTake for a
/// write, the beginning for a read.
#[derive(Clone, Copy, Debug, PartialEq, Eq)]
pub struct Call {
    pub tag: Tag,
    pub sector: u32,
}

/// What is known of a session by its pass. No code makes a value of it.
pub struct PassPart {
    pub session: u32,
    /// It stands for this session and for all later ones: their passes are yet to be made.
    pub unmade: bool,
    /// The steps that lanes made while they held the pass.
    pub steps: u64,
    /// The session's calls that stand in its lanes' logs, oldest first.
    pub entries: [Entry; 0],
}

/// A lane, its number, the shape of its arena, the pass that it holds if there is one, and how many
/// steps its seat has counted. No code makes a value of it.
pub struct Owned {
    pub number: u32,
    pub lane: Lane,
    pub shape: Shape,
    pub held: [PassPart; 0],
    pub steps: u64,
}

/// How many steps a seat has made, and what the last two looks at a word found. While its lane holds
/// a pass, the steps are the pass's. No code makes a value of it.
pub struct Count {
    pub steps: u64,
    pub last: u64,
    pub before: u64,
}

/// What a seat knows. No code makes a value of it.
pub struct View {
    /// The lane that the seat steps, if it has one: this number, this lane, an arena of this shape.
    pub live: bool,
    pub number: u32,
    pub lane: Lane,
    pub shape: Shape,
    /// The pass that its lane holds, if there is one.
    pub held: [PassPart; 0],
    /// The lanes that it has yet to hand out, or has taken back.
    pub rest: [Owned; 0],
    /// Passes that no lane holds.
    pub loose: [PassPart; 0],
    pub count: Count,
}

/// What a table is made with.
#[derive(Drop)]
pub struct Key {
    pub shape: Shape,
    /// The words of the arena, as it was opened.
    pub words: Snapshot<Items<u64>>,
    /// Its lanes, by their numbers.
    pub lanes: Snapshot<Items<LaneState>>,
}

/// The rule that every step keeps: `Holds` of specs/Law.antt.
pub struct Law;

impl TableRule<Call, View, Key> for Law {
    ghost use Rattle.lane_table.specs.Law.{holds, first};

    ghost holds = { holds };

    ghost first = { first };
}

/// A seat at the table.
pub type LaneSeat = Seat<Call, View>;

/// The words, as lanes share them.
pub type Words = Shared<Call, View, Key, Law>;

/// The words with their memory.
pub type WordTable = Table<Call, View, Key, Law, Global>;
