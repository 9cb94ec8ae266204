// The server's own record, its answers and its asks: what every call of the server is told in, and the tests that the calls share.
#![tactic(auto)]

use addresses::Address;
use asks::Work;
use bodies::PacketType;
use refusal::Refusal;
use times::Time;

mod answers;
mod asking;
mod held;
mod ready;
mod rebuild;

pub use asking::{no_ask, packet_ask, private_token_ask};
pub use held::{
    held_client_id, held_expiry, held_receive_key, held_send_key, held_timeout, held_user_data,
    hold_challenge, hold_token,
};
pub use ready::{
    all_tables_refusal, answer_refusal, both_tables_refusal, call_refusal, list_refusal,
    pending_refusal, slots_refusal,
};
pub use rebuild::{with_ask, with_clock, with_counters, with_limit};

// What set-up fixed. `slots`, `pending` and `entries` are numbers of places, `addresses` one of public addresses.
#[derive(Clone, Copy)]
pub struct SetUp {
    pub protocol_id: u64,
    pub connect_key: [u8; 32],
    pub challenge_key: [u8; 32],
    pub secure: bool,
    pub slots: usize,
    pub pending: usize,
    pub entries: usize,
    pub addresses: usize,
}

#[derive(Clone, Copy)]
pub struct Counters {
    pub global_sequence: u64,
    pub challenge_sequence: u64,
}

// What a sealed packet is for, and so what its yes does: denied; a challenge's token, and then the packet around it; the keep-alive
// that connects the pump at a pending place; a payload or keep-alive of a slot; a disconnect of a slot that is emptied already.
#[derive(Clone, Copy)]
pub enum Goal {
    Denied { addr: Address },
    ChallengeToken { addr: Address },
    ChallengePacket { addr: Address },
    Connecting { place: usize, slot: usize },
    Sending { slot: usize },
    Ending { client_id: u64, addr: Address },
}

// Which step goes on when the host answers, and what that step needs. A packet's place is a slot's if it came from a connected
// address, else a pending one's; of a seal `sequence` is the counter that was used, `end` the length of the packet in the output.
#[derive(Clone, Copy)]
pub enum Stage {
    Idle,
    Packet {
        connected: bool,
        place: usize,
        kind: PacketType,
        sequence: u64,
        start: usize,
    },
    Token {
        addr: Address,
        expire_timestamp: u64,
        mac_low: u64,
        mac_high: u64,
    },
    Challenge {
        place: usize,
        start: usize,
    },
    Seal {
        goal: Goal,
        sequence: u64,
        end: usize,
    },
}

// The kind of answer that an ask wants: to an open, to a private token's open, to a seal.
#[derive(Clone, Copy, PartialEq, Eq)]
pub enum Wanted {
    Open,
    Token,
    Seal,
}

// The open ask, and how long the buffers were that its call was lent.
#[derive(Clone, Copy)]
pub struct OpenAsk {
    pub stage: Stage,
    pub datagram: usize,
    pub out: usize,
}

// The Rust's `NetcodeServer`, less what the host lends: tables, public addresses and output.
#[derive(Clone, Copy)]
pub struct NetcodeServer {
    pub set: SetUp,
    pub max_clients: usize,
    pub current_time: Time,
    pub counters: Counters,
    pub ask: OpenAsk,
}

// What a call comes to, the Rust's `ServerResult` with its refusals. A packet to send stands in the output up to `end`, a payload in
// the datagram from `start` to `end`. A record that ended without a packet has `end` 0, and the refusal (15 or 24) where that is why.
#[derive(Clone, Copy)]
pub enum Answer {
    Refused(Refusal),
    Nothing,
    Ask,
    PacketToSend {
        addr: Address,
        end: usize,
    },
    Payload {
        client_id: u64,
        start: usize,
        end: usize,
    },
    ClientConnected {
        client_id: u64,
        slot: usize,
        addr: Address,
        end: usize,
    },
    ClientDisconnected {
        client_id: u64,
        addr: Address,
        end: usize,
        refusal: Option<Refusal>,
    },
}

// The record as a call leaves it, and what the call comes to.
#[derive(Clone, Copy)]
pub struct Step {
    pub server: NetcodeServer,
    pub answer: Answer,
}

#[derive(Clone, Copy)]
pub enum Buffer {
    Datagram,
    Output,
}

// What the host is asked for: to open or to seal, in place, the part of a buffer from start to end, tag and all, under a key, with
// the first `nonce_size` bytes of the nonce (12, of a private token 24) and the first `size` of the additional data (22, 0, 29).
#[derive(Clone, Copy)]
pub struct Ask {
    pub work: Work,
    pub buffer: Buffer,
    pub key: [u8; 32],
    pub nonce: [u8; 24],
    pub nonce_size: usize,
    pub additional: [u8; 29],
    pub size: usize,
    pub start: usize,
    pub end: usize,
}

// Bytes that hold what a step after the ask's needs of a token: id, expiry, timeout, two keys, user data.
pub const HELD_BYTES: usize = 340;
