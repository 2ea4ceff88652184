//! Tests of `mich_saved`, by its public calls.
#[cfg(test)]
mod tests;
