//! Laws about the definitions of this crate. Each is a function that does nothing; its `ensures`
//! states the law.
ghost use Rattle.label_codec.specs.Grammar.{GrammarIsReading};
ghost use Rattle.label_codec.specs.Laws.{SpellingStands, SpellingReadsBack, SpellingIsClean, SpellingIsTheOne, NoSharedSpelling, NoDoubleReading, ReadIsWritable};

/// A law: a slot is read as a label exactly if its bytes encode the label by the grammar.
pub fn grammar_is_reading()
    ensures { GrammarIsReading }
{}

/// A law: the canonical encoding of a label encodes it in the slot that it names, and is read as
/// the label.
pub fn spelling_reads_back()
    ensures stands { SpellingStands }
    ensures read { SpellingReadsBack }
{}

/// A law: the canonical encoding of a label has zero after the name and in all reserved bytes. No
/// other list of 256 bytes with these zeros encodes the label.
pub fn spelling_is_the_one()
    ensures clean { SpellingIsClean }
    ensures one { SpellingIsTheOne }
{}

/// A law: no two labels share a canonical encoding, and none encodes two labels.
pub fn spelling_is_unambiguous()
    ensures shared { NoSharedSpelling }
    ensures double { NoDoubleReading }
{}

/// A law: a label that was read can be written.
pub fn read_is_writable()
    ensures { ReadIsWritable }
{}
