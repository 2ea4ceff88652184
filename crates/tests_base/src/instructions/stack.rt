//! Tests of `mich_stack`, by its public calls.
#[cfg(test)]
mod tests;
