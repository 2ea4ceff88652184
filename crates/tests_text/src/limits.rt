//! Tests of the limits of a statement and of a file, by public calls.
#[cfg(test)]
mod tests;
