//! Capital hexadecimal, as frames are typed and printed.
#![tactic(auto)]

mod decoder;
pub mod fault;

pub use decoder::decode;
pub use fault::HexFault;
