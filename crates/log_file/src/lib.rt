// The log file as document 01 lays it out: its head and its records read from bytes and written as bytes, and the text that a replay prints.
#![tactic(auto)]

mod answers;
mod entries;
mod header;
mod records;
mod texts;
mod words;
mod writer;

pub use answers::LONGEST;
pub use header::{HEAD, read_head};
pub use records::{RECORD, operation_of, read_record};
pub use texts::Text;
pub use writer::{write_head, write_record};
