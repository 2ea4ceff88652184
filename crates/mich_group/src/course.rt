//! The course of a file: its world, its prices and its groups, which each statement takes on.
//!
//! A contract sees by `Follows` of specs/course/Following how a course follows one of the rules.
mod begun;
mod course;
mod error;

pub use begun::begin;
pub use course::Course;
pub use error::CourseError;
