//! Tests of the reader of text that comes in pieces, by its public calls.
#[cfg(test)]
mod tests;
