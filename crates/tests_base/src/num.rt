//! Tests of `mich_num`, by its public calls.
#[cfg(test)]
mod tests;
