// The packets of a slot, under its send key and its own counter: 15, 14, or in clear and to be sealed.
ghost use Rattle.std.specs.Prelude.{◌≡◌, false, ◌≤◌, ◌<◌, length};
ghost use Rattle.bodies.specs.Kinds.{is_request};
ghost use Rattle.bodies.specs.Bodies.{kind_of, wants};
ghost use Rattle.encode.specs.Encodes.{need};
ghost use Rattle.places.specs.Layout.{Shaped};
ghost use Rattle.turns.specs.Packets.{spoken};
ghost use Rattle.sending.specs.Packets.{sending, served, ending};

use asks::NETCODE_MAC_BYTES;
use bodies::{Packet, PacketType};
use refusal::{Refusal, Why};
use server::{Answer, Goal, NetcodeServer, Stage};
use turns::{MOST, Turn};

// The bytes of a sealed packet: prefix byte, sequence, body, tag.
fn packet_bytes(kind: PacketType, given: usize, sequence: u64) -> usize
    requires { (is_request kind ≡ false) × (given ≤ 1300) }
    ensures { result ≡ need kind given sequence }
{
    1 + prefix::sequence_bytes_required(sequence) + kind.body_len(given) + NETCODE_MAC_BYTES
}

// A packet that slot i goes on after: nothing of the slot changes before the host's yes.
pub fn send(
    server: NetcodeServer,
    slots: &[u64],
    i: usize,
    packet: Packet,
    bytes: &[u8],
    out: &mut [u8],
) -> Turn
    requires { Shaped slots.now server.set.slots × (i < server.set.slots) × (is_request (kind_of packet) ≡ false) × (wants (kind_of packet) ≡ 0) × (length bytes.now ≤ 1300) }
    ensures { spoken result out.new ≡ sending server slots.now i packet bytes.now out.old }
{
    let set = server.set;
    let n = set.slots;
    let sequence = records::sequence(slots, n, i);
    if sequence == MOST {
        return turns::refused(server, Refusal(Why::CounterSpent));
    }
    let len = out.len();
    if len < packet_bytes(packet.packet_type(), bytes.len(), sequence) {
        return turns::refused(server, Refusal(Why::OutputShort));
    }
    let key = records::send_key(slots, n, i);
    let ask = turns::write_packet_with(out, packet, bytes, set.protocol_id, key, sequence);
    let goal = Goal::Sending { slot: i };
    let stage = Stage::Seal {
        goal,
        sequence,
        end: ask.end,
    };
    turns::asking(server, stage, 0, len, ask)
}

// The disconnect that ends slot i: the slot is emptied before its ask, and with 15 too, where no packet comes.
pub fn end(
    server: NetcodeServer,
    client_id: u64,
    slots: &mut [u64],
    i: usize,
    out: &mut [u8],
) -> Turn
    requires { Shaped slots.old server.set.slots × (i < server.set.slots) }
    ensures { served result slots.new out.new ≡ ending server client_id slots.old i out.old }
{
    let set = server.set;
    let n = set.slots;
    let addr = places::address(slots, n, i);
    let sequence = records::sequence(slots, n, i);
    if sequence == MOST {
        records::empty(slots, n, i);
        return turns::answered(
            server,
            Answer::ClientDisconnected {
                client_id,
                addr,
                end: 0,
                refusal: Some(Refusal(Why::CounterSpent)),
            },
        );
    }
    let len = out.len();
    if len < packet_bytes(PacketType::Disconnect, 0, sequence) {
        return turns::refused(server, Refusal(Why::OutputShort));
    }
    let key = records::send_key(slots, n, i);
    records::empty(slots, n, i);
    let ask = turns::write_packet(out, Packet::Disconnect, set.protocol_id, key, sequence);
    let goal = Goal::Ending { client_id, addr };
    let stage = Stage::Seal {
        goal,
        sequence,
        end: ask.end,
    };
    turns::asking(server, stage, 0, len, ask)
}
