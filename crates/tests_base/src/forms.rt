//! Tests of `mich_forms`, by its public calls.
#[cfg(test)]
mod tests;
