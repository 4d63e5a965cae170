/// How a line breaks the grammar.
#[derive(Clone, Copy, Debug, PartialEq, Eq)]
pub enum LineKind {
    /// It isn't UTF-8, or it has a control character: U+0000 to U+001F, or U+007F.
    Encoding,
    /// Its first word begins no line, a field is missing, or a word stands after the last field.
    Word,
    /// A field isn't a number in decimal digits without sign or leading zero, or is too large.
    Number,
    /// A field isn't a UUID in the form with hyphens.
    Uuid,
    /// A field isn't the value of a sector.
    Value,
    /// The blank before a name is missing.
    Name,
    /// The line stands at a wrong place, or has the wrong number of a session.
    Order,
}

/// What a script has too much of.
#[derive(Clone, Copy, Debug, PartialEq, Eq)]
pub enum ScriptLimit {
    /// More than 1,024 sessions.
    Sessions,
    /// More than 65,536 calls.
    Calls,
    /// A line of more than 32,768 bytes without its LF.
    Bytes,
}

/// Why a script or a schedule isn't read.
#[derive(Clone, Copy, Debug, PartialEq, Eq)]
pub enum ScriptFault {
    /// The line with this number, counted from 1, isn't in the grammar.
    Line { number: u64, kind: LineKind },
    /// A line passes a limit.
    TooMany { what: ScriptLimit },
    /// Memory ran out.
    OutOfMemory,
}

/// Why a line isn't read.
#[derive(Clone, Copy, Debug, PartialEq, Eq)]
pub(crate) enum LineFault {
    /// It isn't in the grammar.
    Kind(LineKind),
    /// Memory ran out.
    OutOfMemory,
}
