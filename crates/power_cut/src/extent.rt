//! Where a namespace lies in an interleave set.
ghost use Rattle.std.specs.Prelude.{◌≡◌, ℕ, ◌+◌, ◌*◌, ◌%◌, ◌<◌, ◌≤◌, [], length};
ghost use Rattle.interleave.specs.Places.{LiesAt, unit_of};
ghost use Rattle.interleave.specs.Sound.{IsRun, line_of, span_of};
ghost use Rattle.power_cut.specs.Namespace.{IsLaid, IsWordRun, byte_at, raw_byte, raw_bytes, count_of, over};

use interleave::InterleaveSet;
use std::marker::Model;

/// The size of a word, in bytes.
const WORD: u64 = 8;

/// Where a namespace lies in an interleave set: the same extent in each of its mappings. Contracts
/// see it as a namespace of no modules.
#[derive(Drop)]
pub struct SetExtent<'a> {
    set: &'a InterleaveSet,
    /// The namespace's address in each mapping, in bytes from the mapping's start.
    offset: u64,
    /// Its size in each mapping, in bytes.
    raw: u64,
}

impl<'a> Model for SetExtent<'a> {
    ghost use Rattle.std.specs.Prelude.{[]};
    ghost use Rattle.power_cut.specs.Namespace.{IsLaid, Namespace, over};

    ghost Value = { Namespace };

    ghost view = { λ extent. over extent.set.now extent.offset extent.raw [] };

    ghost invariant = { λ extent. IsLaid (over extent.set.now extent.offset extent.raw []) };
}

impl<'a> SetExtent<'a> {
    /// The namespace that has `raw` bytes from the relative address `offset` on in each mapping of
    /// the set.
    ///
    /// Both must be multiples of the set's unit, and the namespace must end inside the mappings.
    pub fn of(set: &'a InterleaveSet, offset: u64, raw: u64) -> SetExtent<'a>
        requires from { offset % unit_of set.now ≡ 0 }
        requires to { raw % unit_of set.now ≡ 0 }
        requires inside { offset + raw ≤ span_of set.now }
        ensures made { result ≡ over set.now offset raw [] }
        ensures laid { IsLaid result }
    {
        let _unit = set.unit();
        let _span = set.span();
        SetExtent { set, offset, raw }
    }

    /// Returns the namespace's size in all modules, in bytes. It lies inside the set's mappings, and
    /// no two of its bytes have the same place (`laid`).
    pub fn bytes(&self) -> u64
        ensures bytes { result ≡ raw_bytes self.now }
        ensures laid { IsLaid self.now }
    {
        u64::from(self.set.ways()) * self.raw
    }

    /// Returns the byte of the region with which the namespace begins.
    fn first(&self) -> u64
        ensures { result ≡ length self.now.set * self.now.offset }
    {
        u64::from(self.set.ways()) * self.offset
    }

    /// Returns the module and the device address of a byte of the namespace.
    pub fn place(&self, byte: u64) -> (u32, u64)
        requires { byte < raw_bytes self.now }
        ensures { LiesAt self.now.set (raw_byte self.now byte) result.0 result.1 }
    {
        self.set.place(self.first() + byte)
    }

    /// Returns how many bytes of the namespace from `byte` on are contiguous in its module, up to
    /// the end of the interleave line.
    pub fn run_length(&self, byte: u64) -> u64
        requires { byte < raw_bytes self.now }
        ensures some { 0 < result }
        ensures run { (which address : ℕ) → LiesAt self.now.set (raw_byte self.now byte) which address
            → IsRun self.now.set (raw_byte self.now byte) which address result }
        ensures line { raw_byte self.now byte % line_of self.now.set + result ≡ line_of self.now.set }
    {
        self.set.run_length(self.first() + byte)
    }

    /// Returns the module of a word of the namespace, and the word's number there.
    pub fn locate(&self, i: u64) -> (usize, u64)
        requires { i < count_of self.now }
        ensures { LiesAt self.now.set (byte_at self.now i) result.0 (8 * result.1) }
    {
        let (module, address) = self.set.place(self.first() + WORD * i);
        (module as usize, address / WORD)
    }

    /// Returns how many words of the namespace from word `i` on are contiguous in its module, up to
    /// the end of the interleave line.
    pub fn word_run(&self, i: u64) -> u64
        requires { i < count_of self.now }
        ensures some { 0 < result }
        ensures run { (which k : ℕ) → LiesAt self.now.set (byte_at self.now i) which (8 * k)
            → IsWordRun self.now i which k result }
        ensures line { byte_at self.now i % line_of self.now.set + 8 * result ≡ line_of self.now.set }
    {
        self.set.run_length(self.first() + WORD * i) / WORD
    }
}
