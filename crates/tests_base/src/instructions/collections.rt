//! Tests of collections, of `mich_step`.
#[cfg(test)]
mod tests;
