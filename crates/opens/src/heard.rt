// A packet that the host opened: the window moves, then the body is read, then the packet acts.
ghost use Rattle.std.specs.Prelude.{◌≡◌, ◌+◌, ◌≤◌, ◌<◌, length};
ghost use Rattle.bodies.specs.Bodies.{kind_of, least};
ghost use Rattle.places.specs.Layout.{Shaped};
ghost use Rattle.turns.specs.Outcomes.{half};
ghost use Rattle.opens.specs.Heard.{accepted, slot_says, challenge_asked, pending_says, slot_heard, pending_heard};

use asks::{NETCODE_MAC_BYTES, Work};
use bodies::{NETCODE_CHALLENGE_TOKEN_BYTES, Packet, PacketType};
use server::{Answer, NetcodeServer, Stage};
use turns::Turn;

// The window of place i with the sequence accepted, if the type is windowed.
fn accept(table: &mut [u64], n: usize, i: usize, kind: PacketType, sequence: u64)
    requires { Shaped table.old n × (i < n) }
    ensures { table.new ≡ accepted table.old n i kind sequence }
{
    if kind.apply_replay_protection() {
        records::advance_window(table, n, i, sequence);
    }
}

// What a good packet does to its slot. The body stands in the datagram from start to end.
fn slot_says(
    server: NetcodeServer,
    slots: &mut [u64],
    n: usize,
    i: usize,
    start: usize,
    end: usize,
    packet: Packet,
) -> Turn
    requires { Shaped slots.old n × (i < n) }
    ensures { half result slots.new ≡ slot_says server slots.old n i start end packet }
{
    match packet {
        Packet::ConnectionRequest { .. } => turns::closed(server, Answer::Nothing),
        Packet::ConnectionDenied => turns::closed(server, Answer::Nothing),
        Packet::Challenge { .. } => turns::closed(server, Answer::Nothing),
        Packet::Response { .. } => turns::closed(server, Answer::Nothing),
        Packet::KeepAlive { .. } => {
            records::confirm(slots, n, i);
            turns::closed(server, Answer::Nothing)
        }
        Packet::Payload => {
            let client_id = places::client_id(slots, n, i);
            records::confirm(slots, n, i);
            turns::closed(
                server,
                Answer::Payload {
                    client_id,
                    start,
                    end,
                },
            )
        }
        Packet::Disconnect => {
            let answer = Answer::ClientDisconnected {
                client_id: places::client_id(slots, n, i),
                addr: places::address(slots, n, i),
                end: 0,
                refusal: None,
            };
            records::empty(slots, n, i);
            turns::closed(server, answer)
        }
    }
}

// A packet from a connected address: what refuses its body, 9 where that is short, with the window moved.
pub fn from_slot(
    server: NetcodeServer,
    i: usize,
    kind: PacketType,
    sequence: u64,
    start: usize,
    slots: &mut [u64],
    datagram: &[u8],
) -> Turn
    requires { Shaped slots.old server.set.slots × (i < server.set.slots) × (start + 16 ≤ length datagram.now) }
    ensures { half result slots.new ≡ slot_heard server slots.old i kind sequence start datagram.now }
{
    let set = server.set;
    let n = set.slots;
    accept(slots, n, i, kind, sequence);
    let end = datagram.len() - NETCODE_MAC_BYTES;
    match bodies::read(kind, datagram, start, end - start) {
        Ok(packet) => {
            let now = server.current_time;
            records::set_received_time(slots, n, i, now);
            slot_says(server, slots, n, i, start, end, packet)
        }
        Err(refusal) => turns::closed(server, Answer::Refused(refusal)),
    }
}

// The ask to open a response's challenge: 300 bytes after the token sequence, which is the nonce.
fn ask_challenge(
    server: NetcodeServer,
    j: usize,
    token_sequence: u64,
    start: usize,
    datagram: usize,
    out: usize,
) -> Turn
    requires { start + 308 ≤ datagram }
    ensures { result ≡ challenge_asked server j token_sequence start datagram out }
{
    let set = server.set;
    let challenge_key = set.challenge_key;
    let at = start + 8;
    let ask = asks::token_ask(
        Work::Open,
        challenge_key,
        token_sequence,
        at,
        at + NETCODE_CHALLENGE_TOKEN_BYTES,
    );
    let stage = Stage::Challenge {
        place: j,
        start: at,
    };
    turns::asking(server, stage, datagram, out, server::packet_ask(ask))
}

// What a good packet of a pending sender leads to: a response's challenge is to be opened, and nothing else is handed out.
fn pending_says(
    server: NetcodeServer,
    j: usize,
    start: usize,
    datagram: usize,
    out: usize,
    packet: Packet,
) -> Turn
    requires { start + least (kind_of packet) ≤ datagram }
    ensures { result ≡ pending_says server j start datagram out packet }
{
    match packet {
        Packet::ConnectionRequest { .. } => turns::closed(server, Answer::Nothing),
        Packet::ConnectionDenied => turns::closed(server, Answer::Nothing),
        Packet::Challenge { .. } => turns::closed(server, Answer::Nothing),
        Packet::Response { token_sequence } => {
            ask_challenge(server, j, token_sequence, start, datagram, out)
        }
        Packet::KeepAlive { .. } => turns::closed(server, Answer::Nothing),
        Packet::Payload => turns::closed(server, Answer::Nothing),
        Packet::Disconnect => turns::closed(server, Answer::Nothing),
    }
}

// A packet from a pending address: the same tests, with its own window.
pub fn from_pending(
    server: NetcodeServer,
    j: usize,
    kind: PacketType,
    sequence: u64,
    start: usize,
    pending: &mut [u64],
    out: usize,
    datagram: &[u8],
) -> Turn
    requires { Shaped pending.old server.set.pending × (j < server.set.pending) × (start + 16 ≤ length datagram.now) }
    ensures { half result pending.new ≡ pending_heard server pending.old j kind sequence start out datagram.now }
{
    let set = server.set;
    let m = set.pending;
    accept(pending, m, j, kind, sequence);
    let len = datagram.len();
    let end = len - NETCODE_MAC_BYTES;
    match bodies::read(kind, datagram, start, end - start) {
        Ok(packet) => {
            let now = server.current_time;
            records::set_received_time(pending, m, j, now);
            pending_says(server, j, start, len, out, packet)
        }
        Err(refusal) => turns::closed(server, Answer::Refused(refusal)),
    }
}
