//! Tests of big maps, of `mich_store_steps`.
#[cfg(test)]
mod tests;
