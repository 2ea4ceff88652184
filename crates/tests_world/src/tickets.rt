//! Tests of `mich_tickets`, by its public calls.
#[cfg(test)]
mod tests;
