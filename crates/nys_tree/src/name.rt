use sqlite_items::Items;

/// A name where it is declared or used.
#[derive(Drop)]
pub struct Name {
    /// The line of its first byte, from 1.
    pub line: u32,
    /// The column of its first byte, in bytes, from 1.
    pub col: u32,
    /// Where its first number stands in the vector of places; 0 before the names are tested.
    pub place: usize,
    /// How many numbers stand there: 1 for a scalar, a list's length, and 0 for the payload, whose
    /// numbers are read where they lie. 0 before the names are tested.
    pub len: u32,
    /// The bytes of the name.
    pub text: Items<u8>,
}
