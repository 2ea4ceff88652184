//! Tests of `mich_term`, by its public calls.
#[cfg(test)]
mod tests;
