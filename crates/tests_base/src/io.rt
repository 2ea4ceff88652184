//! Tests of `mich_io`, by its public calls.
#[cfg(test)]
mod tests;
