// Bodies as they are written: field after field, from index at.
ghost use Rattle.std.specs.Prelude.{◌≡◌, ◌+◌, ◌≤◌, length};
ghost use Rattle.serialize.specs.Runs.{splice};
ghost use Rattle.bodies.specs.Bodies.{kind_of, body_length, wants, request_body, token_body, keep_alive_body, body};

use crate::{NETCODE_CHALLENGE_TOKEN_BYTES, Packet};

// Version, protocol, expiry, nonce and private data; the first and the last two stand in bytes, one after the other.
fn write_request(out: &mut [u8], at: usize, protocol_id: u64, expire_timestamp: u64, bytes: &[u8])
    requires { (at + 1077 ≤ length out.old) × (1061 ≤ length bytes.now) }
    ensures { out.new ≡ splice out.old at (request_body protocol_id expire_timestamp bytes.now) }
{
    serialize::copy(out, at, bytes, 0, 13);
    serialize::write_u64(out, at + 13, protocol_id);
    serialize::write_u64(out, at + 21, expire_timestamp);
    serialize::copy(out, at + 29, bytes, 13, 1048);
}

// The token's sequence and its 300 bytes.
fn write_token(out: &mut [u8], at: usize, token_sequence: u64, bytes: &[u8])
    requires { (at + 308 ≤ length out.old) × (300 ≤ length bytes.now) }
    ensures { out.new ≡ splice out.old at (token_body token_sequence bytes.now) }
{
    serialize::write_u64(out, at, token_sequence);
    serialize::copy(out, at + 8, bytes, 0, NETCODE_CHALLENGE_TOKEN_BYTES);
}

fn write_keep_alive(out: &mut [u8], at: usize, client_index: u32, max_clients: u32)
    requires { at + 8 ≤ length out.old }
    ensures { out.new ≡ splice out.old at (keep_alive_body client_index max_clients) }
{
    serialize::write_u32(out, at, client_index);
    serialize::write_u32(out, at + 4, max_clients);
}

// The packet's body, whole, into out from index at.
#[tactic(auto, using(serialize::proofs::Lists::part_whole, serialize::proofs::Lists::splice_none))]
pub fn write(out: &mut [u8], at: usize, packet: Packet, bytes: &[u8])
    requires { (wants (kind_of packet) ≤ length bytes.now) × (at + body_length (kind_of packet) (length bytes.now) ≤ length out.old) }
    ensures { out.new ≡ splice out.old at (body packet bytes.now) }
{
    match packet {
        Packet::ConnectionRequest {
            protocol_id,
            expire_timestamp,
        } => write_request(out, at, protocol_id, expire_timestamp, bytes),
        Packet::ConnectionDenied => {}
        Packet::Challenge { token_sequence } => write_token(out, at, token_sequence, bytes),
        Packet::Response { token_sequence } => write_token(out, at, token_sequence, bytes),
        Packet::KeepAlive {
            client_index,
            max_clients,
        } => write_keep_alive(out, at, client_index, max_clients),
        Packet::Payload => serialize::copy(out, at, bytes, 0, bytes.len()),
        Packet::Disconnect => {}
    }
}
