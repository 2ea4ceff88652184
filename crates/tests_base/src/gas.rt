//! Tests of `mich_gas`, by its public calls.
#[cfg(test)]
mod tests;
