//! The words of a namespace, spread over the modules of an interleave set.
ghost use Rattle.std.specs.Prelude.{◌≡◌, ◌+◌, ◌*◌, ◌%◌, ◌<◌, ◌≤◌, true, None, is_some, length, slice_index_or};
ghost use Rattle.std.specs.List.{All};
ghost use Rattle.interleave.specs.Places.{LiesAt, unit_of};
ghost use Rattle.interleave.specs.Sound.{IsWord, span_of};
ghost use Rattle.power_cut.specs.Namespace.{HasBytes, HasRows, ReachEnds, IsOver, IsRow, AreApart, AreAll, AreSameOutside, byte_at, count_of, row_of, words_of};
ghost use Rattle.power_cut.specs.Placed.{PlacedStay, beside_and_place};

use crate::extent::SetExtent;
use cut_words::{CutWords, Fuse, PowerCut, WordSpace};
use interleave::InterleaveSet;
use std::marker::Model;

/// The size of a word, in bytes.
const WORD: u64 = 8;

/// Returns whether a module has the words of `bytes` bytes from a device address on.
fn has_words(modules: &[CutWords], module: u32, start: u64, bytes: u64) -> bool
    ensures yes { result ≡ true → HasBytes modules.now «module» start bytes }
    ensures no { HasBytes modules.now «module» start bytes → result ≡ true }
{
    match modules.get(module as usize) {
        Some(words) => {
            u128::from(start) + u128::from(bytes) <= u128::from(WORD) * u128::from(words.count())
        }
        None => false,
    }
}

/// Returns whether these modules, by number, have the words of the set's modules up to the end of
/// each mapping, as [`SetWords::of`] requires.
pub fn reach_ends(set: &InterleaveSet, modules: &[CutWords]) -> bool
    ensures yes { result ≡ true → ReachEnds set.now modules.now }
    ensures no { ReachEnds set.now modules.now → result ≡ true }
{
    let bytes = set.span();
    for position in 0..set.ways() {
        if !has_words(modules, set.module_at(position), set.start(position), bytes) {
            return false;
        }
    }
    true
}

/// The words of a namespace on an interleave set. It owns the words of all modules and borrows the
/// set. Contracts see the set, the namespace's extent and the modules' words.
///
/// The contract of a call that is generic over rows of words ([`WordSpace`]) mentions only the
/// row's words and what lies beside them. The modules' other words alone don't determine where the
/// row lies:
///
/// ```text
/// before   module 0  | .. a a a a .. 0 0 0 0 .. |      words a, the others 0 0 0 0
/// after    module 0  | .. 0 0 0 0 .. b b b b .. |      words b, the others 0 0 0 0: a was lost
/// ```
///
/// Therefore `beside` also includes the row's place (`beside_and_place` of `specs/Placed.antt`): a
/// call that doesn't change `beside` doesn't move the row ([`beside_tells_the_place`]).
#[derive(Drop)]
pub struct SetWords<'a> {
    extent: SetExtent<'a>,
    /// The words of all modules, by number.
    modules: Vec<CutWords>,
}

impl<'a> Model for SetWords<'a> {
    ghost use Rattle.power_cut.specs.Namespace.{Namespace, IsLaid, HasRows, over};

    ghost Value = { Namespace };

    ghost view = { λ words. over words.extent.set words.extent.offset words.extent.raw words.modules.items };

    ghost invariant = { λ words. IsLaid (over words.extent.set words.extent.offset words.extent.raw words.modules.items) × HasRows words.extent.set words.modules.items };
}

impl<'a> SetWords<'a> {
    /// Makes the words of the namespace that has `raw` bytes from the relative address `offset` on
    /// in each mapping of the set.
    ///
    /// Both must be multiples of the set's unit, and the namespace must end inside the mappings.
    /// `modules` must have the words of all modules by number, at least up to the end of each of
    /// the set's mappings. The call takes no memory. No two words of the namespace lie at the same
    /// word of a module (`apart`).
    pub fn of(set: &'a InterleaveSet, offset: u64, raw: u64, modules: Vec<CutWords>) -> SetWords<'a>
        requires from { offset % unit_of set.now ≡ 0 }
        requires to { raw % unit_of set.now ≡ 0 }
        requires inside { offset + raw ≤ span_of set.now }
        requires rows { All IsRow modules.items }
        requires reach { ReachEnds set.now modules.items }
        ensures made { result ≡ record { set = set.now; offset = offset; raw = raw; modules = modules.items } }
        ensures apart { AreApart result }
        ensures over { IsOver result modules.items (words_of result) }
    {
        SetWords {
            extent: SetExtent::of(set, offset, raw),
            modules,
        }
    }

    /// Returns the words of the modules. Each word of the namespace is where `InterleaveSet::place`
    /// says. The call takes no memory.
    pub fn into_modules(self) -> Vec<CutWords>
        ensures modules { result.items ≡ self.entry.modules }
        ensures over { IsOver self.entry result.items (words_of self.entry) }
        ensures rows { HasRows self.entry.set result.items }
    {
        let SetWords { modules, .. } = self;
        modules
    }

    /// Returns whether a word of the namespace was stored since its last flush, even with an equal
    /// value. The word must exist.
    pub fn pending(&self, i: u64) -> bool
        requires { i < length (words_of self.now).kept }
        ensures { result ≡ is_some (slice_index_or (words_of self.now).stored i None) }
    {
        let (module, word) = self.locate(i);
        self.modules[module].pending(word)
    }

    /// Returns the module of a word of the namespace, and the word's number there.
    fn locate(&self, i: u64) -> (usize, u64)
        requires { i < count_of self.now }
        ensures there { LiesAt self.now.set (byte_at self.now i) result.0 (8 * result.1) }
        ensures module { result.0 < length self.now.modules }
        ensures word { result.1 < length (row_of self.now.modules result.0).kept }
    {
        self.extent.locate(i)
    }
}

impl<'a> WordSpace for SetWords<'a> {
    ghost words = { λ words. words_of words };

    ghost beside = { λ words. beside_and_place words };

    fn count(&self) -> u64 {
        self.extent.bytes() / WORD
    }

    fn load(&self, i: u64) -> u64 {
        let (module, word) = self.locate(i);
        self.modules[module].load(word)
    }

    fn load_from(&self, first: u64, into: &mut [u64]) {
        let mut done = 0;
        while done < into.len() {
            let i = first + done as u64;
            let (module, word) = self.locate(i);
            let size = self.extent.word_run(i).min((into.len() - done) as u64) as usize;
            self.modules[module].load_from(word, &mut into[done..done + size]);
            done += size;
        }
    }

    fn store(&mut self, fuse: &mut Fuse, i: u64, v: u64) -> Result<(), PowerCut> {
        let (module, word) = self.locate(i);
        self.modules[module].store(fuse, word, v)
    }

    fn keep(&mut self, fuse: &mut Fuse, i: u64) -> Result<(), PowerCut> {
        let (module, word) = self.locate(i);
        self.modules[module].keep(fuse, word)
    }
}

/// A law: the words of a namespace and those beside it are all words of the modules (`all`). If the
/// words beside it are the same, so is every word outside its extents (`outside`). So a call that
/// doesn't change `beside` has changed only words of the namespace (by [`beside_tells_the_place`]).
///
/// `offset` and `raw` are as in [`SetWords::of`].
pub fn words_and_beside_are_all(set: &InterleaveSet, offset: u64, raw: u64)
    requires from { offset % unit_of set.now ≡ 0 }
    requires to { raw % unit_of set.now ≡ 0 }
    requires inside { offset + raw ≤ span_of set.now }
    ensures all { AreAll set.now offset raw }
    ensures outside { AreSameOutside set.now offset raw }
{
    let _unit = set.unit();
    let _span = set.span();
}

/// A law: if two rows have the same `beside` (that of [`SetWords`]), they lie in the same place of
/// the same set, and the same words lie beside them.
pub fn beside_tells_the_place()
    ensures { PlacedStay }
{}
