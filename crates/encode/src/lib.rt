// Encoding: a packet, or a challenge token, into a lent buffer. The cipher is the host's: a call that needs it ends in an ask to
// seal, and the host's answer goes on from there. What an open ask needs to go on is a small value that the caller keeps.
#![tactic(auto)]

mod token;
mod writing;

use asks::Ask;
use refusal::Refusal;
pub use token::generate_challenge;
pub use writing::{answer_seal, encode};

// What encoding comes to, an enum of its own, as document 01 wants an answer: refused, an ask to seal, or a packet of so many bytes.
#[derive(Clone, Copy)]
pub enum Encoding {
    Refused(Refusal),
    Asked,
    Length(usize),
}

// An ask to seal that is open: where its part ends, and the length of the buffer that was lent.
#[derive(Clone, Copy)]
pub struct Sealing {
    pub end: usize,
    pub len: usize,
}

#[derive(Clone, Copy)]
pub struct Encoded {
    pub answer: Encoding,
    pub ask: Ask,
    pub sealing: Option<Sealing>,
}
