//! Tests of `mich_generate`, by its public calls.
#[cfg(test)]
mod tests;
