//! Tests of the prices of steps, of `mich_step`.
#[cfg(test)]
mod tests;
