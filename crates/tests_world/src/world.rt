//! Tests of `mich_world`, by its public calls.
#[cfg(test)]
mod tests;
