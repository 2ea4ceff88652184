// The binary form of nodes, and how it is read: the definitions, in specs/.
/// What a node's first byte says of it (Octez "data encoding", Micheline expressions). The variants stand in
/// the order of their bytes, from 0 on; an application goes by its number of arguments, and by whether it
/// has annotations.
#[derive(Clone, Copy, PartialEq, Eq)]
pub enum Tag {
    Integer,
    Text,
    Sequence,
    Alone,
    AloneAnnotated,
    One,
    OneAnnotated,
    Two,
    TwoAnnotated,
    Many,
    Bytes,
}

/// What is wrong with bytes that are no binary form of a node.
#[derive(Clone, Copy, Debug, PartialEq, Eq)]
pub enum DecodeKind {
    /// A tag over 10, or that of many arguments with fewer than three; at the tag.
    BadTag,
    /// A code that is no primitive's; at the code.
    BadPrim,
    /// A field that does not fit in what encloses it; at the field.
    BadLength,
    /// Another spelling of an integer than its shortest, or one outside -2^127 to 2^127-1; at its first byte.
    BadInteger,
    /// A byte that no string holds; at the byte. Or annotations of another form; at their first byte.
    BadString,
    /// A byte behind the root; at the byte.
    Trailing,
    /// A node at depth 1,001; at its tag.
    TooDeep,
    /// A string or bytes of more than 1,048,576 bytes; at the length field.
    TooWide,
}
