//! The tokens of a text.
use mich_base::{Bytes, Text};

#[derive(Debug, Drop)]
pub enum Token {
    Number(i128),
    Bytes(Bytes),
    Text(Text),
    Name(Text),
    Annotation(Text),
    OpenBrace,
    CloseBrace,
    OpenParen,
    CloseParen,
    Semicolon,
}
