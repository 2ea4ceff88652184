//! Tests of UNPACK, of `mich_literals`.
#[cfg(test)]
mod tests;
