use nys_bytes::Text;

/// A token and the place of its first byte: its line and its column, both from 1, columns counting
/// bytes.
#[derive(Debug, Drop)]
pub struct Token {
    pub line: u32,
    pub col: u32,
    pub kind: TokenKind,
}

/// What a token is, by "Machine language" in docs/FORMATS.md.
#[derive(Debug, Drop)]
pub enum TokenKind {
    /// A name of at most 32 bytes that is none of the grammar's words.
    Name { text: Text },
    /// A number from 0 to 9,223,372,036,854,775,807.
    Number { value: i64 },
    /// One of the grammar's words.
    Word { text: Text },
    /// One of the grammar's symbols.
    Symbol { text: Text },
    /// The end of the text, which stands once, last, where a next byte would stand.
    End,
}
