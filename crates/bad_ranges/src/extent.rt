//! The bad words of a namespace.
ghost use Rattle.std.specs.Prelude.{◌≡◌, ℕ, ◌+◌, ◌*◌, ◌^◌, ◌<◌, ◌≤◌, IfOk, List, Option};
ghost use Rattle.std.specs.List.{list_any, range_with_len};
ghost use Rattle.interleave.specs.Places.{LiesAt};
ghost use Rattle.power_cut.specs.Namespace.{IsLaid, IsWordRun, byte_at, count_of};
ghost use Rattle.bad_ranges.specs.Bad.{bad_words};
ghost use Rattle.bad_ranges.specs.Table.{AreTables};

use crate::ranges::any_has_record;
use crate::table::{Table, module_has_bytes, tables_of};
use arena_check::BadWords;
use nvd_words::Items;
use power_cut::SetExtent;
use std::alloc::{AllocError, Global};
use std::marker::Model;

/// The size of a word, in bytes.
const WORD: u64 = 8;

/// The bad words of a namespace on an interleave set. Contracts see where the namespace lies, and
/// the modules' objects.
#[derive(Drop)]
pub struct BadExtent<'a> {
    extent: &'a SetExtent<'a>,
    /// The object of each module, by number, if it has one. Only contracts look at it.
    objects: &'a [Option<Items<u8>>],
    /// The sorted records of each object.
    tables: Vec<Table>,
    /// Whether an object has a record.
    reported: bool,
}

impl<'a> Model for BadExtent<'a> {
    ghost use Rattle.bad_ranges.specs.Bad.{Reported};
    ghost use Rattle.bad_ranges.specs.Table.{IsSorted};

    ghost Value = { Reported };

    ghost view = { λ words. record { extent = words.extent.now; objects = words.objects.now } };

    ghost invariant = { λ words. IsSorted words.reported words.tables.items words.objects.now };
}

impl<'a> BadExtent<'a> {
    /// The bad words of a namespace, by the objects of bad ranges of all modules, by number. It
    /// sorts the records of each object. It fails only if memory runs out.
    pub fn of(
        alloc: Global,
        extent: &'a SetExtent<'a>,
        objects: &'a [Option<Items<u8>>],
    ) -> Result<BadExtent<'a>, AllocError>
        ensures { IfOk result (λ words. words ≡ record { extent = extent.now; objects = objects.now }) }
    {
        let tables = tables_of(alloc, objects)?;
        Ok(BadExtent {
            extent,
            objects,
            tables,
            reported: any_has_record(objects),
        })
    }
}

impl<'a> BadWords for BadExtent<'a> {
    ghost bad = { λ words. bad_words words.extent words.objects };

    fn is_bad(&self, i: u64) -> bool {
        self.reported && is_word_bad(self.extent, &self.tables, i)
    }

    fn any_bad(&self, first: u64, count: u64) -> bool {
        self.reported && are_any_bad(self.extent, &self.tables, first, count)
    }
}

/// Returns whether one of `count` words of a namespace from word i on is bad. They must be
/// contiguous in a module.
fn is_run_bad(extent: &SetExtent<'_>, tables: &[Table], i: u64, count: u64) -> bool
    requires laid { IsLaid extent.now }
    requires inside { i + count ≤ count_of extent.now }
    requires some { 0 < count }
    requires run { (which k : ℕ) → LiesAt extent.now.set (byte_at extent.now i) which (8 * k) → IsWordRun extent.now i which k count }
    ensures { (objects : List (Option (List ℕ))) → AreTables tables.now objects → result ≡ list_any (bad_words extent.now objects) (range_with_len i count) }
{
    let (module, word) = extent.locate(i);
    let from = u128::from(WORD) * u128::from(word);
    let to = from + u128::from(WORD) * u128::from(count);
    module_has_bytes(tables, module, from, to)
}

/// Returns whether word i of a namespace is bad.
fn is_word_bad(extent: &SetExtent<'_>, tables: &[Table], i: u64) -> bool
    ensures { (objects : List (Option (List ℕ))) → AreTables tables.now objects → result ≡ bad_words extent.now objects i }
{
    i < extent.bytes() / WORD && is_run_bad(extent, tables, i, 1)
}

/// Returns whether one of `count` words of a namespace from word `first` on is bad. It makes one
/// search for each run of words that are contiguous in a module.
fn are_any_bad(extent: &SetExtent<'_>, tables: &[Table], first: u64, count: u64) -> bool
    requires { first + count ≤ 2 ^ 61 }
    ensures { (objects : List (Option (List ℕ))) → AreTables tables.now objects → result ≡ list_any (bad_words extent.now objects) (range_with_len first count) }
{
    let end = (first + count).min(extent.bytes() / WORD);
    let mut i = first;
    while i < end {
        let run = extent.word_run(i).min(end - i);
        if is_run_bad(extent, tables, i, run) {
            return true;
        }
        i += run;
    }
    false
}
