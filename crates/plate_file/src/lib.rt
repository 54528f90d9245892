// Reads plate files: the text form of a chunk's description and of its two streams.
#![tactic(auto)]

mod draft;
mod field;
mod header;
mod hex;
mod keywords;
mod lines;
mod names;
mod numbers;
mod parse;
mod plate;
mod problem;
mod reader;
mod shown;
mod stages;
mod streams;

pub use parse::parse_plate;
pub use plate::{Plate, Records};
pub use problem::{Malformed, Problem};
pub use shown::Quoted;
