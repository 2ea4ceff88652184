//! UNPACK: bytes as values, whose lambdas have typed bodies (Michelson reference, "UNPACK").
mod trying;
mod unpacking;

pub use unpacking::unpack_value;
