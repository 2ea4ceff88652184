//! Tests of `mich_report`, by its public calls.
#[cfg(test)]
mod tests;
