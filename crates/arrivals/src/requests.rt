// A request in clear: what it says, and the ask to open its private token.
ghost use Rattle.std.specs.Prelude.{◌≡◌, ◌≤◌, length};
ghost use Rattle.refusal.specs.Verdicts.{verdict};
ghost use Rattle.places.specs.Layout.{Shaped};
ghost use Rattle.turns.specs.Outcomes.{state, came};
ghost use Rattle.arrivals.specs.Requests.{request_refusal, token_asked, request_read};
ghost use Rattle.arrivals.specs.Arrivals.{request_from, sender_in};

use crate::{Sender, senders};
use addresses::Address;
use prefix::NETCODE_VERSION_INFO;
use refusal::{Refusal, Why};
use server::{Answer, NetcodeServer, Stage};
use turns::Turn;

// Where the fields stand in a datagram.
const VERSION: usize = 1;

const PROTOCOL: usize = 14;

const EXPIRY: usize = 22;

const XNONCE: usize = 30;

const MAC: usize = 1062;

// 10, 11, 12 by version, protocol and expiry.
fn request_refusal(server: NetcodeServer, datagram: &[u8]) -> Result<(), Refusal>
    requires { 1078 ≤ length datagram.now }
    ensures { result ≡ verdict (request_refusal server datagram.now) }
{
    let version = NETCODE_VERSION_INFO;
    if !serialize::same_bytes(datagram, VERSION, &version, 0, 13) {
        return Err(Refusal(Why::VersionWrong));
    }
    let set = server.set;
    if serialize::read_u64(datagram, PROTOCOL) != set.protocol_id {
        return Err(Refusal(Why::ProtocolWrong));
    }
    let now = server.current_time;
    if now.secs >= serialize::read_u64(datagram, EXPIRY) {
        return Err(Refusal(Why::Expired));
    }
    Ok(())
}

fn ask_token(server: NetcodeServer, addr: Address, out: usize, datagram: &[u8]) -> Turn
    requires { 1078 ≤ length datagram.now }
    ensures { result ≡ token_asked server addr out datagram.now }
{
    let set = server.set;
    let connect_key = set.connect_key;
    let mut xnonce = [0u8; 24];
    serialize::copy(&mut xnonce, 0, datagram, XNONCE, 24);
    let expire_timestamp = serialize::read_u64(datagram, EXPIRY);
    let ask = server::private_token_ask(connect_key, set.protocol_id, expire_timestamp, &xnonce);
    let stage = Stage::Token {
        addr,
        expire_timestamp,
        mac_low: serialize::read_u64(datagram, MAC),
        mac_high: serialize::read_u64(datagram, MAC + 8),
    };
    turns::asking(server, stage, datagram.len(), out, ask)
}

fn read_request(server: NetcodeServer, addr: Address, out: usize, datagram: &[u8]) -> Turn
    requires { 1078 ≤ length datagram.now }
    ensures { result ≡ request_read server addr out datagram.now }
{
    if let Err(refusal) = request_refusal(server, datagram) {
        return turns::refused(server, refusal);
    }
    ask_token(server, addr, out, datagram)
}

// From a connected address it sets the received time, and no more is done; from a pending one it sets that place's and is read.
pub fn process_request(
    server: NetcodeServer,
    addr: Address,
    slots: &mut [u64],
    pending: &mut [u64],
    out: usize,
    datagram: &[u8],
) -> Turn
    requires { Shaped slots.old server.set.slots × Shaped pending.old server.set.pending × (1078 ≤ length datagram.now) }
    ensures { came result slots.new pending.new ≡ request_from (state server slots.old pending.old) addr out datagram.now (sender_in (state server slots.old pending.old) addr) }
{
    let set = server.set;
    let n = set.slots;
    let m = set.pending;
    let now = server.current_time;
    match senders::find_sender(slots, n, pending, m, addr) {
        Sender::Connected(i) => {
            records::set_received_time(slots, n, i, now);
            turns::answered(server, Answer::Nothing)
        }
        Sender::Pending(j) => {
            records::set_received_time(pending, m, j, now);
            read_request(server, addr, out, datagram)
        }
        Sender::Unknown => read_request(server, addr, out, datagram),
    }
}
