//! Tests of bodies and literals, of `mich_check`.
#[cfg(test)]
mod tests;
