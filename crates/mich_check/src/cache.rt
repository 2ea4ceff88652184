//! The typed code of the bodies of lambdas that ran last, so that it need not be made again (Michelson reference, "LAMBDA").
mod bodies;
mod kept;
mod marks;

pub use bodies::{Bodies, Uses};
