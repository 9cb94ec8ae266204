// A datagram: `process_packet`, up to the first ask.
#![tactic(auto)]

ghost use Rattle.std.specs.Prelude.{◌≡◌, ◌≤◌, length};
ghost use Rattle.refusal.specs.Verdicts.{verdict};
ghost use Rattle.places.specs.Layout.{Shaped};
ghost use Rattle.turns.specs.Outcomes.{state, came};
ghost use Rattle.arrivals.specs.Arrivals.{lent_refusal, arrival_refusal, kind_arrives, arrives};

use addresses::Address;
use bodies::PacketType;
use refusal::{Refusal, Why};
use server::NetcodeServer;
use turns::{NETCODE_MAX_PACKET_BYTES, Turn};

mod requests;
mod sealed;
mod senders;

// Whose address a datagram came from: a slot's, a pending place's, or nobody's.
#[derive(Clone, Copy)]
pub enum Sender {
    Connected(usize),
    Pending(usize),
    Unknown,
}

// A request in clear: prefix 1, version 13, protocol 8, expiry 8, nonce 24, private data 1,024.
const REQUEST_BYTES: usize = 1078;

// 14, then 19.
fn lent_refusal(addr: Address, out: usize) -> Result<(), Refusal>
    ensures { result ≡ verdict (lent_refusal addr out) }
{
    if out < NETCODE_MAX_PACKET_BYTES {
        return Err(Refusal(Why::OutputShort));
    }
    addr.refusal()
}

// 16, 23, 14, 19: before the datagram is looked at.
fn arrival_refusal(
    server: NetcodeServer,
    addr: Address,
    slots: &[u64],
    pending: &[u64],
    out: usize,
) -> Result<(), Refusal>
    ensures { result ≡ verdict (arrival_refusal (state server slots.now pending.now) addr out) }
{
    let set = server.set;
    let ask = server.ask;
    let tables = server::both_tables_refusal(set, slots.len(), pending.len());
    server::call_refusal(ask, tables)?;
    lent_refusal(addr, out)
}

// A datagram of a known type: a request is read in clear (9 where it is short), every other packet is to be opened.
fn process_kind(
    server: NetcodeServer,
    addr: Address,
    slots: &mut [u64],
    pending: &mut [u64],
    out: usize,
    datagram: &[u8],
    kind: PacketType,
) -> Turn
    requires { Shaped slots.old server.set.slots × Shaped pending.old server.set.pending × (18 ≤ length datagram.now) }
    ensures { came result slots.new pending.new ≡ kind_arrives (state server slots.old pending.old) addr out datagram.now kind }
{
    if kind.is_request() {
        if datagram.len() < REQUEST_BYTES {
            return turns::refused(server, Refusal(Why::BodyShort));
        }
        return requests::process_request(server, addr, slots, pending, out, datagram);
    }
    sealed::process_sealed(server, addr, slots, pending, out, datagram, kind)
}

// A datagram from an address, as the Rust's `process_packet` up to its first use of the cipher. The output is not written: an ask to
// open comes first.
pub fn process_packet(
    server: NetcodeServer,
    addr: Address,
    slots: &mut [u64],
    pending: &mut [u64],
    out: &[u8],
    datagram: &[u8],
) -> Turn
    ensures { came result slots.new pending.new ≡ arrives (state server slots.old pending.old) addr (length out.now) datagram.now }
{
    let room = out.len();
    if let Err(refusal) = arrival_refusal(server, addr, slots, pending, room) {
        return turns::refused(server, refusal);
    }
    match decode::read_type(datagram) {
        Ok(kind) => process_kind(server, addr, slots, pending, room, datagram, kind),
        Err(refusal) => turns::refused(server, refusal),
    }
}
