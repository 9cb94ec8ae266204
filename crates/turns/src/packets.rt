// Packets, written from the output's start and to be sealed there.
ghost use Rattle.std.specs.Prelude.{◌≡◌, false, ◌≤◌, ◌<◌, length};
ghost use Rattle.bodies.specs.Kinds.{is_request};
ghost use Rattle.bodies.specs.Bodies.{kind_of, wants};
ghost use Rattle.encode.specs.Encodes.{need};
ghost use Rattle.turns.specs.Packets.{keep_alive, seal_ask_with, seal_out_with, seal_ask, seal_out, sealing, spoken, denied};

use crate::{MOST, Turn};
use addresses::Address;
use bodies::Packet;
use refusal::{Refusal, Why};
use server::{Answer, Ask, Goal, NetcodeServer, Stage};

// A slot's keep-alive.
pub fn keep_alive(max_clients: usize, i: usize) -> Packet
    requires { i < 4096 }
    ensures { result ≡ keep_alive max_clients i }
{
    Packet::KeepAlive {
        client_index: i as u32,
        max_clients: (max_clients % 4294967296) as u32,
    }
}

// The packet in clear with the bytes beside it, and the ask to seal it; it ends where the ask's part does.
pub fn write_packet_with(
    out: &mut [u8],
    packet: Packet,
    bytes: &[u8],
    protocol_id: u64,
    key: [u8; 32],
    sequence: u64,
) -> Ask
    requires { (is_request (kind_of packet) ≡ false) × (wants (kind_of packet) ≡ 0) × (need (kind_of packet) (length bytes.now) sequence ≤ length out.old) }
    ensures { sealing result out.new ≡ sealing (seal_ask_with packet (length bytes.now) protocol_id key sequence) (seal_out_with out.old packet bytes.now sequence) }
{
    let encoded = encode::encode(out, packet, bytes, protocol_id, Some(key), sequence);
    server::packet_ask(encoded.ask)
}

// A packet that has no bytes beside it.
pub fn write_packet(
    out: &mut [u8],
    packet: Packet,
    protocol_id: u64,
    key: [u8; 32],
    sequence: u64,
) -> Ask
    requires { (is_request (kind_of packet) ≡ false) × (wants (kind_of packet) ≡ 0) × (need (kind_of packet) 0 sequence ≤ length out.old) }
    ensures { sealing result out.new ≡ sealing (seal_ask packet protocol_id key sequence) (seal_out out.old packet sequence) }
{
    let nothing: [u8; 0] = [];
    write_packet_with(out, packet, &nothing, protocol_id, key, sequence)
}

// Denied, under the global sequence: 15 where that is the last.
pub fn deny(
    server: NetcodeServer,
    datagram: usize,
    out: &mut [u8],
    key: [u8; 32],
    addr: Address,
) -> Turn
    requires { 1400 ≤ length out.old }
    ensures { spoken result out.new ≡ denied server datagram out.old key addr }
{
    let set = server.set;
    let counters = server.counters;
    let sequence = counters.global_sequence;
    if sequence == MOST {
        return crate::closed(server, Answer::Refused(Refusal(Why::CounterSpent)));
    }
    let len = out.len();
    let ask = write_packet(
        out,
        Packet::ConnectionDenied,
        set.protocol_id,
        key,
        sequence,
    );
    let goal = Goal::Denied { addr };
    let stage = Stage::Seal {
        goal,
        sequence,
        end: ask.end,
    };
    crate::asking(server, stage, datagram, len, ask)
}
