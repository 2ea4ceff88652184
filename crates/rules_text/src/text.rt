// Micheline text: its tokens, its grammar and its faults, in specs/; and the names that definitions and code share.
/// The kinds of fault of a text.
#[derive(Clone, Copy, Debug, PartialEq, Eq)]
pub enum TextKind {
    BadChar,
    BadString,
    BadBytes,
    BadNumber,
    Unclosed,
    Unexpected,
    TooDeep,
    TooLong,
}

/// What a token is, by its first byte.
#[derive(Clone, Copy, Debug, PartialEq, Eq)]
pub enum Shape {
    /// A number or bytes.
    Digits,
    Quoted,
    Word,
    Note,
    OpenBrace,
    CloseBrace,
    OpenParen,
    CloseParen,
    Semicolon,
}
