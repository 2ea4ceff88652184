//! Verdicts on printed runs.
#[cfg(test)]
mod tests;
