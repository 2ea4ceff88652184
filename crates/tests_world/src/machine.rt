//! Tests of `mich_interpreter`, by its public calls.
#[cfg(test)]
mod tests;
