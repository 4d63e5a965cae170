//! Laws about the definitions of this crate. Each is a function that does nothing; its `ensures`
//! states the law.
ghost use Rattle.label_index.specs.Grammar.{GrammarIsReading};
ghost use Rattle.label_index.specs.Laws.{SpellingStands, SpellingReadsBack, SpellingIsClean, SpellingIsTheOne, NoSharedSpelling, NoDoubleReading, ReadIsValid};

/// A law: a side of a label area is read as a record exactly if its bytes encode the record by the
/// grammar.
pub fn grammar_is_reading()
    ensures { GrammarIsReading }
{}

/// A law: the canonical encoding of a record encodes it, and an area with these bytes on the
/// record's side is read as the record.
pub fn spelling_reads_back()
    ensures stands { SpellingStands }
    ensures read { SpellingReadsBack }
{}

/// A law: the canonical encoding of a record has zero in Flags, in the high bits of Seq and in the
/// bits of Free from NSlot on. No other list of bytes with these zeros encodes the record.
pub fn spelling_is_the_one()
    ensures clean { SpellingIsClean }
    ensures one { SpellingIsTheOne }
{}

/// A law: no two records share a canonical encoding, and none encodes two records.
pub fn spelling_is_unambiguous()
    ensures shared { NoSharedSpelling }
    ensures double { NoDoubleReading }
{}

/// A law: a record that was read can be written.
pub fn read_is_writable()
    ensures { ReadIsValid }
{}
