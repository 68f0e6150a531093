//! The frames that a service control point and the exchange send each other: a reader and a writer, and nothing of the
//! exchange itself.
//!
//! `read` takes any bytes and gives the frame that they are, or their first fault. `write` takes any frame and puts its
//! bytes at the front of a buffer, or refuses it. A frame has one reading and one spelling.
#![tactic(auto)]

mod arguments;
mod check;
pub mod code;
pub mod item;
pub mod items;
pub mod limits;
pub mod operation;
mod reader;
mod writer;

pub use code::Code;
pub use item::{Item, Mode};
pub use items::Items;
pub use operation::{Frame, Operation};
pub use reader::read;
pub use writer::write;
