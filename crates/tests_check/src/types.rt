//! Tests of `mich_types`, by its public calls.
#[cfg(test)]
mod tests;
