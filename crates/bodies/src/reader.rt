// Bodies as they are read, from a slice and a place: the numbers by value, the bytes as parts of the slice.
ghost use Rattle.std.specs.Prelude.{◌≡◌, ◌+◌, ◌-◌, ◌≤◌, length};
ghost use Rattle.serialize.specs.Runs.{part};
ghost use Rattle.bodies.specs.Bodies.{least, numbers, read_body};

use crate::{
    NETCODE_CHALLENGE_TOKEN_BYTES, NETCODE_CONNECT_TOKEN_PRIVATE_BYTES,
    NETCODE_CONNECT_TOKEN_XNONCE_BYTES, Packet, PacketType,
};
use refusal::{Refusal, Why};

// The n bytes from offset on of what starts at index at; as many of them as there are.
pub fn field(src: &[u8], at: usize, offset: usize, n: usize) -> &[u8]
    ensures { result.now ≡ part src.now (at + offset) n }
{
    let start = at.saturating_add(offset).min(src.len());
    let end = start.saturating_add(n).min(src.len());
    &src[start..end]
}

// A request's version, in a body at index at.
pub fn version_info(src: &[u8], at: usize) -> &[u8]
    ensures { result.now ≡ part src.now (at + 0) 13 }
{
    field(src, at, 0, 13)
}

// A request's nonce.
pub fn xnonce(src: &[u8], at: usize) -> &[u8]
    ensures { result.now ≡ part src.now (at + 29) 24 }
{
    field(src, at, 29, NETCODE_CONNECT_TOKEN_XNONCE_BYTES)
}

// A request's private data.
pub fn private_data(src: &[u8], at: usize) -> &[u8]
    ensures { result.now ≡ part src.now (at + 53) 1024 }
{
    field(src, at, 53, NETCODE_CONNECT_TOKEN_PRIVATE_BYTES)
}

// The sealed token of a challenge or response.
pub fn token_data(src: &[u8], at: usize) -> &[u8]
    ensures { result.now ≡ part src.now (at + 8) 300 }
{
    field(src, at, 8, NETCODE_CHALLENGE_TOKEN_BYTES)
}

// A payload: all of the body, from index at to end.
pub fn payload(src: &[u8], at: usize, end: usize) -> &[u8]
    ensures { result.now ≡ part src.now (at + 0) (end - at) }
{
    field(src, at, 0, end.saturating_sub(at))
}

fn read_request(src: &[u8], at: usize, n: usize) -> Packet
    requires { (at + n ≤ length src.now) × (1077 ≤ n) }
    ensures { result ≡ numbers PacketType.ConnectionRequest (part src.now at n) }
{
    let protocol_id = serialize::read_u64(src, at + 13);
    let expire_timestamp = serialize::read_u64(src, at + 21);
    Packet::ConnectionRequest {
        protocol_id,
        expire_timestamp,
    }
}

fn read_keep_alive(src: &[u8], at: usize, n: usize) -> Packet
    requires { (at + n ≤ length src.now) × (8 ≤ n) }
    ensures { result ≡ numbers PacketType.KeepAlive (part src.now at n) }
{
    let client_index = serialize::read_u32(src, at);
    let max_clients = serialize::read_u32(src, at + 4);
    Packet::KeepAlive {
        client_index,
        max_clients,
    }
}

// The numbers of a body of n bytes at index at, which are enough for its type.
fn read_numbers(kind: PacketType, src: &[u8], at: usize, n: usize) -> Packet
    requires { (at + n ≤ length src.now) × (least kind ≤ n) }
    ensures { result ≡ numbers kind (part src.now at n) }
{
    match kind {
        PacketType::ConnectionRequest => read_request(src, at, n),
        PacketType::ConnectionDenied => Packet::ConnectionDenied,
        PacketType::Challenge => Packet::Challenge {
            token_sequence: serialize::read_u64(src, at),
        },
        PacketType::Response => Packet::Response {
            token_sequence: serialize::read_u64(src, at),
        },
        PacketType::KeepAlive => read_keep_alive(src, at, n),
        PacketType::Payload => Packet::Payload,
        PacketType::Disconnect => Packet::Disconnect,
    }
}

// The body of n bytes at index at, if they are enough for its type.
#[tactic(auto, using(serialize::proofs::Lists::length_part), unfolding(crate::specs::Bodies::read_body, serialize::specs::Choice::pick))]
pub fn read(kind: PacketType, src: &[u8], at: usize, n: usize) -> Result<Packet, Refusal>
    requires { at + n ≤ length src.now }
    ensures { result ≡ read_body kind (part src.now at n) }
{
    if n < kind.least() {
        return Err(Refusal(Why::BodyShort));
    }
    Ok(read_numbers(kind, src, at, n))
}
