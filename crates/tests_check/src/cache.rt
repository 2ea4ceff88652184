//! Tests of the cache of typed bodies, of `mich_check`.
#[cfg(test)]
mod tests;
