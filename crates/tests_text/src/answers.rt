//! Tests of `mich_answers`, by its public calls.
#[cfg(test)]
mod tests;
