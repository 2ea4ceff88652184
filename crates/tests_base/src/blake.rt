//! Tests of `mich_blake`, by its public calls.
#[cfg(test)]
mod tests;
#[cfg(test)]
mod vectors;
