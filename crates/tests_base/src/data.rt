//! Tests of `mich_data`, by its public calls.
#[cfg(test)]
mod tests;
