//! Tests of `mich_base`, by its public calls.
#[cfg(test)]
mod tests;
