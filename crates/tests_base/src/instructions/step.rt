//! Tests of `mich_step`, by its public calls.
#[cfg(test)]
mod tests;
