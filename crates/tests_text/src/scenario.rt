//! Tests of `mich_scenario`, by its public calls.
#[cfg(test)]
mod tests;
