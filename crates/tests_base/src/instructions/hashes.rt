//! Tests of hashes, of `mich_store_steps`.
#[cfg(test)]
mod tests;
