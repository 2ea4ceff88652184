// The limits, as numbers: those of `rules_text`.

/// How many bytes a name may have, and an annotation behind its sign (this host's own).
pub const NAME_LIMIT: usize = 255;

/// How many bytes text and bytes may have (this host's own).
pub const BYTE_LIMIT: usize = 1_048_576;

/// How deep a node may lie (this host's own).
pub const DEPTH_LIMIT: u32 = 1000;

/// How many bytes a statement may have (this host's own).
pub const STATEMENT_LIMIT: usize = 16_777_216;

/// How many bytes a file may have (this host's own).
pub const FILE_LIMIT: usize = 1_073_741_824;

/// How many bytes an encoded node may have (this host's own).
pub const ENCODED_LIMIT: usize = 268_435_456;

/// How many nodes a type may have, in pairs of two parts (this host's own).
pub const TYPE_LIMIT: u32 = 2000;

/// The most that a count may be (Michelson reference, "DIP", "DUP" and "PAIR").
pub const COUNT_LIMIT: u32 = 1023;

/// The most that the number of a part may be (Michelson reference, "GET" and "UPDATE").
pub const PART_LIMIT: u32 = 2047;

/// How many blocks may be open at once (this host's own).
pub const BLOCK_LIMIT: u32 = 100_000;

/// How many nodes the body may have that `APPLY` makes (this host's own).
pub const APPLIED_SIZE: u32 = 100_000;

/// How many levels the body may have that `APPLY` makes (this host's own).
pub const APPLIED_DEPTH: u32 = DEPTH_LIMIT;

/// How many operations may be issued in a group (this host's own).
pub const OPERATION_LIMIT: u32 = 65_535;

/// How many contents a group may have (this host's own).
pub const MOST_CONTENTS: usize = 1000;

/// How much gas a content may have (this host's own).
pub const MOST_GAS: i128 = 10_000_000_000;

/// How much gas a part of a price in a table of costs may be (this host's own).
pub const MOST_PRICE: i128 = 1_000_000;

/// The most mutez that a byte of storage may cost (this host's own).
pub const MOST_RATE: u64 = 1_000_000;

/// The most mutez (Octez "Operations").
pub const MOST_MUTEZ: u64 = (1 << 63) - 1;

/// The largest level (Octez "Operations").
pub const MOST_LEVEL: u64 = (1 << 31) - 1;
