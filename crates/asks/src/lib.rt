// What the host is asked for, and whether what its answer lends is what the ask spoke of.
#![tactic(auto)]

ghost use Rattle.std.specs.Prelude.{◌≡◌, ◌+◌, ltb};
ghost use Rattle.asks.specs.Asks.{no_ask, packet_ask, token_ask, unlike};

// The figures of src/lib.rs that the cipher knows: the bytes of a key and of a tag.
pub const NETCODE_KEY_BYTES: usize = 32;

pub const NETCODE_MAC_BYTES: usize = 16;

#[derive(Clone, Copy)]
pub enum Work {
    Open,
    Seal,
}

// What the host is asked for: to open or to seal, in place, the part of its buffer from start to end, tag and all, under a key and
// a nonce, with the first `size` bytes of additional data: 22 for a packet, none for a challenge token.
#[derive(Clone, Copy)]
pub struct Ask {
    pub work: Work,
    pub key: [u8; NETCODE_KEY_BYTES],
    pub nonce: [u8; 12],
    pub additional: [u8; 22],
    pub size: usize,
    pub start: usize,
    pub end: usize,
}

// Beside an answer that asks for nothing.
pub fn no_ask() -> Ask
    ensures { result ≡ no_ask }
{
    Ask {
        work: Work::Open,
        key: [0; NETCODE_KEY_BYTES],
        nonce: [0; 12],
        additional: [0; 22],
        size: 0,
        start: 0,
        end: 0,
    }
}

// Whether n elements from index at run past room; no sum that could pass 2^64.
pub fn past(room: usize, at: usize, n: usize) -> bool
    ensures { result ≡ ltb room (at + n) }
{
    if room < at {
        return true;
    }
    room - at < n
}

// Whether the buffer is not the ask's, by its length, or does not have the ask's n bytes from index at.
pub fn unlike(at: usize, n: usize, len: usize, room: usize) -> bool
    ensures { result ≡ unlike at n len room }
{
    room != len || past(len, at, n)
}

// The ask for a packet: the sequence is the nonce; version, protocol and prefix byte are the additional data.
pub fn packet_ask(
    work: Work,
    key: [u8; NETCODE_KEY_BYTES],
    sequence: u64,
    prefix_byte: u8,
    protocol_id: u64,
    start: usize,
    end: usize,
) -> Ask
    ensures { result ≡ packet_ask work key sequence prefix_byte protocol_id start end }
{
    Ask {
        work,
        key,
        nonce: prefix::packet_nonce(sequence),
        additional: prefix::get_additional_data(prefix_byte, protocol_id),
        size: 22,
        start,
        end,
    }
}

// The ask for a challenge token: its own sequence is the nonce, and there is no additional data.
pub fn token_ask(
    work: Work,
    key: [u8; NETCODE_KEY_BYTES],
    sequence: u64,
    start: usize,
    end: usize,
) -> Ask
    ensures { result ≡ token_ask work key sequence start end }
{
    Ask {
        work,
        key,
        nonce: prefix::packet_nonce(sequence),
        additional: [0; 22],
        size: 0,
        start,
        end,
    }
}
