use nvd_words::Items;

/// The value of a sector, as a text states it.
#[derive(Debug, Drop)]
pub enum Payload {
    /// The same byte throughout: `fill:` and two hexadecimal digits.
    Fill(u8),
    /// All of its bytes: `hex:` and two hexadecimal digits for each byte.
    Hex(Items<u8>),
}
