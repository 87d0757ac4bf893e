//! What is wrong with bytes that are no record.

/// Which field of the bytes is at fault. Numbers and places are those of the record in
/// docs/FORMATS.md.
#[derive(Clone, Copy, Debug, PartialEq, Eq)]
pub enum WireKind {
    /// Fewer bytes are left than the field has.
    Short,
    /// The two bytes at the front aren't those of a record.
    Magic,
    /// The version isn't 2.
    Version,
    /// No kind of statement has this byte.
    Kind,
    /// The byte of a content is neither 0 nor 1.
    Content,
    /// A count of numbers, lengths, makers or tags is out of its range.
    Count,
    /// The digest of the statement isn't that of the payload behind it.
    Digest,
    /// An epoch, a host, a slot, a length, a number, a maker or a receiver is out of its range.
    Range,
    /// A maker or a receiver isn't above the one before.
    Order,
    /// A byte stands after the record.
    Trailing,
}
