//! Tests of `mich_group`, by its public calls.
#[cfg(test)]
mod course_tests;
#[cfg(test)]
mod statements;
