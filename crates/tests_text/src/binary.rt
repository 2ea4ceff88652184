//! Tests of `mich_binary`, by its public calls.
#[cfg(test)]
mod tests;
