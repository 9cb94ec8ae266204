// Little-endian numbers and runs of bytes and words at a place of a lent slice. Every function asks only that its runs lie
// inside their slices, and says of each slice exactly what it holds at the end.
#![tactic(auto)]

mod bytes;
mod number;
mod runs;
mod words;

pub use bytes::same_bytes;
pub use number::{read_u16, read_u32, read_u64, write_u16, write_u32, write_u64};
pub use runs::{copy, fill};
pub use words::{pack_words, unpack_words};
