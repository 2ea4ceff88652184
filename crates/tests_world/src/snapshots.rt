//! Tests of `mich_snapshot`, by its public calls.
#[cfg(test)]
mod tests;
