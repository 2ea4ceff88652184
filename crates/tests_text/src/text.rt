//! Tests of `mich_text`, by its public calls.
#[cfg(test)]
mod tests;
