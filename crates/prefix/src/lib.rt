// The head of a packet, its prefix byte and sequence bytes, and what the cipher is given beside the text.
#![tactic(auto)]

ghost use Rattle.std.specs.Prelude.{◌≡◌, ◌+◌, ◌≤◌, length};
ghost use Rattle.serialize.specs.Runs.{part, splice};
ghost use Rattle.serialize.specs.Le.{of_le, to_le};
ghost use Rattle.prefix.specs.Head.{fewest, prefix_byte, prefix_of, sequence_at};
ghost use Rattle.prefix.specs.Sealed.{additional_data, token_additional_data, packet_nonce};

use refusal::{Refusal, Why};

pub const NETCODE_VERSION_INFO: [u8; 13] = *b"NETCODE 1.02\0";

// What a prefix byte says: the packet's type, of any byte and so a number (over 6 there is none), and how many sequence bytes follow.
#[derive(Clone, Copy)]
pub struct Prefix {
    pub kind: u8,
    pub count: usize,
}

// How many bytes the writer uses for a sequence: it walks the eight bytes from the top down to the first that is not zero.
pub fn sequence_bytes_required(sequence: u64) -> usize
    ensures { result ≡ fewest sequence }
{
    let mut mask: u64 = 0xFF00_0000_0000_0000;
    for i in 0..8usize {
        if sequence & mask != 0 {
            return 8 - i;
        }
        mask = mask >> 8;
    }
    0
}

pub fn encode_prefix(value: u8, sequence: u64) -> u8
    ensures { result ≡ prefix_byte value (fewest sequence) }
{
    let count = sequence_bytes_required(sequence);
    value % 16 + (count as u8) * 16
}

pub fn decode_prefix(value: u8) -> Prefix
    ensures { result ≡ prefix_of value }
{
    Prefix {
        kind: value % 16,
        count: (value / 16) as usize,
    }
}

// The sequence's bytes into out from index at; how many they are.
pub fn write_sequence(out: &mut [u8], at: usize, seq: u64) -> usize
    requires { at + fewest seq ≤ length out.old }
    ensures { (result ≡ fewest seq) × (out.new ≡ splice out.old at (to_le (fewest seq) seq)) }
{
    let len = sequence_bytes_required(seq);
    let mut sequence_scratch = [0u8; 8];
    serialize::write_u64(&mut sequence_scratch, 0, seq);
    serialize::copy(out, at, &sequence_scratch, 0, len);
    len
}

// The number that len bytes of source from index at are, padded or not.
pub fn sequence_of(source: &[u8], at: usize, len: usize) -> u64
    requires { (len ≤ 8) × (at + len ≤ length source.now) }
    ensures { result ≡ of_le (part source.now at len) }
{
    let mut seq_scratch = [0u8; 8];
    serialize::copy(&mut seq_scratch, 0, source, at, len);
    serialize::read_u64(&seq_scratch, 0)
}

// The sequence that a prefix byte's count says, of any source: refused where no sequence has that count, or where the source ends
// before its bytes.
pub fn read_sequence(source: &[u8], at: usize, len: usize) -> Result<u64, Refusal>
    ensures { result ≡ sequence_at source.now at len }
{
    if len > 8 {
        return Err(Refusal(Why::SequenceLong));
    }
    if at > source.len() {
        return Err(Refusal(Why::TagMissing));
    }
    if source.len() - at < len {
        return Err(Refusal(Why::TagMissing));
    }
    Ok(sequence_of(source, at, len))
}

// Additional data of a packet: version, protocol, prefix byte.
pub fn get_additional_data(prefix: u8, protocol_id: u64) -> [u8; 22]
    ensures { result ≡ additional_data prefix protocol_id }
{
    let mut buffer = [0u8; 22];
    serialize::copy(&mut buffer, 0, &NETCODE_VERSION_INFO, 0, 13);
    serialize::write_u64(&mut buffer, 13, protocol_id);
    buffer[21] = prefix;
    buffer
}

// Additional data of a private token: version, protocol, expiry.
pub fn get_token_additional_data(protocol_id: u64, expire_timestamp: u64) -> [u8; 29]
    ensures { result ≡ token_additional_data protocol_id expire_timestamp }
{
    let mut buffer = [0u8; 29];
    serialize::copy(&mut buffer, 0, &NETCODE_VERSION_INFO, 0, 13);
    serialize::write_u64(&mut buffer, 13, protocol_id);
    serialize::write_u64(&mut buffer, 21, expire_timestamp);
    buffer
}

// The nonce of a packet: its sequence.
pub fn packet_nonce(sequence: u64) -> [u8; 12]
    ensures { result ≡ packet_nonce sequence }
{
    let mut nonce = [0u8; 12];
    serialize::write_u64(&mut nonce, 4, sequence);
    nonce
}
