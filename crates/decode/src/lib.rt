// Decoding: a datagram, or a challenge token. The cipher is the host's: a call that needs it ends in an ask to open, and the host's
// answer goes on from there. What an open ask needs to go on is a small value that the caller keeps and hands back.
#![tactic(auto)]

mod reading;
mod token;

use asks::Ask;
use bodies::{ChallengeToken, Packet, PacketType};
pub use reading::{answer_open, decode, guard_refusal, read_opened, read_start, read_type};
use refusal::Refusal;
use replay_protection::ReplayProtection;
pub use token::{answer_challenge, decode_challenge};

// A packet that was read, with its sequence and the place of its body in the datagram.
#[derive(Clone, Copy)]
pub struct Opened {
    pub sequence: u64,
    pub packet: Packet,
    pub start: usize,
    pub end: usize,
}

// What decoding comes to, an enum of its own, as document 01 wants an answer: refused, an ask to open, or a packet.
#[derive(Clone, Copy)]
pub enum Decoding {
    Refused(Refusal),
    Asked,
    Read(Opened),
}

// An ask to open a packet: its type, sequence and place, and the length of the datagram that was lent.
#[derive(Clone, Copy)]
pub struct Opening {
    pub kind: PacketType,
    pub sequence: u64,
    pub start: usize,
    pub len: usize,
}

// What a call answers, the ask that is then open, if one is, and the sender's window, if there is one.
#[derive(Clone, Copy)]
pub struct Decoded {
    pub answer: Decoding,
    pub ask: Ask,
    pub opening: Option<Opening>,
    pub guard: Option<ReplayProtection>,
}

// A sealed datagram's sequence, and where its sealed part starts.
#[derive(Clone, Copy)]
pub struct Start {
    pub sequence: u64,
    pub start: usize,
}

// What decoding a challenge token comes to, likewise.
#[derive(Clone, Copy)]
pub enum Proving {
    Refused(Refusal),
    Asked,
    Proved,
}

// An ask to open a challenge token: where it stands, and the length of the buffer that was lent.
#[derive(Clone, Copy)]
pub struct ProofOpening {
    pub at: usize,
    pub len: usize,
}

#[derive(Clone, Copy)]
pub struct Challenged {
    pub answer: Proving,
    pub ask: Ask,
    pub opening: Option<ProofOpening>,
    pub token: ChallengeToken,
}
