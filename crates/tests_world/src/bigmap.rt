//! Tests of `mich_bigmap`, by its public calls.
#[cfg(test)]
mod tests;
