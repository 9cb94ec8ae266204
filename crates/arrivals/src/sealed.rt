// A sealed packet: the tests before it is opened, and the ask. No table is written.
ghost use Rattle.std.specs.Prelude.{◌≡◌, ◌≤◌, ◌<◌, length};
ghost use Rattle.decode.specs.Decodes.{start_at};
ghost use Rattle.refusal.specs.Verdicts.{verdict};
ghost use Rattle.places.specs.Layout.{Shaped};
ghost use Rattle.turns.specs.Outcomes.{state};
ghost use Rattle.arrivals.specs.Arrivals.{window_refusal, open_asked, sealed_at, by_start, sealed_from, sender_in};

use crate::{Sender, senders};
use addresses::Address;
use asks::{NETCODE_MAC_BYTES, Work};
use bodies::PacketType;
use decode::Start;
use refusal::{Refusal, Why};
use server::{NetcodeServer, Stage};
use turns::Turn;

// 5 or 6 by the record's window, for a windowed type alone.
fn window_refusal(
    table: &[u64],
    n: usize,
    i: usize,
    kind: PacketType,
    sequence: u64,
) -> Result<(), Refusal>
    requires { Shaped table.now n × (i < n) }
    ensures { result ≡ verdict (window_refusal table.now n i kind sequence) }
{
    if kind.apply_replay_protection() {
        return records::window_refusal(table, n, i, sequence);
    }
    Ok(())
}

// The ask to open what follows the sequence, under the record's receive key.
fn ask_open(
    server: NetcodeServer,
    table: &[u64],
    n: usize,
    connected: bool,
    i: usize,
    kind: PacketType,
    sequence: u64,
    start: usize,
    out: usize,
    datagram: &[u8],
) -> Turn
    requires { Shaped table.now n × (i < n) × (18 ≤ length datagram.now) }
    ensures { result ≡ open_asked server table.now n connected i kind sequence start out datagram.now }
{
    let set = server.set;
    let len = datagram.len();
    let prefix_byte = datagram[0];
    let key = records::receive_key(table, n, i);
    let ask = asks::packet_ask(
        Work::Open,
        key,
        sequence,
        prefix_byte,
        set.protocol_id,
        start,
        len,
    );
    let stage = Stage::Packet {
        connected,
        place: i,
        kind,
        sequence,
        start,
    };
    turns::asking(server, stage, len, out, server::packet_ask(ask))
}

// 5 or 6, then 7, else the ask.
fn test_sealed(
    server: NetcodeServer,
    table: &[u64],
    n: usize,
    connected: bool,
    i: usize,
    kind: PacketType,
    sequence: u64,
    start: usize,
    out: usize,
    datagram: &[u8],
) -> Turn
    requires { Shaped table.now n × (i < n) × (18 ≤ length datagram.now) }
    ensures { result ≡ sealed_at server table.now n connected i kind sequence start out datagram.now }
{
    if let Err(refusal) = window_refusal(table, n, i, kind, sequence) {
        return turns::refused(server, refusal);
    }
    if asks::past(datagram.len(), start, NETCODE_MAC_BYTES) {
        return turns::refused(server, Refusal(Why::TagMissing));
    }
    ask_open(
        server, table, n, connected, i, kind, sequence, start, out, datagram,
    )
}

// 4 by its head.
fn read_sealed(
    server: NetcodeServer,
    table: &[u64],
    n: usize,
    connected: bool,
    i: usize,
    kind: PacketType,
    out: usize,
    datagram: &[u8],
) -> Turn
    requires { Shaped table.now n × (i < n) × (18 ≤ length datagram.now) }
    ensures { result ≡ by_start server table.now n connected i kind out datagram.now (start_at datagram.now) }
{
    match decode::read_start(datagram) {
        Ok(Start { sequence, start }) => test_sealed(
            server, table, n, connected, i, kind, sequence, start, out, datagram,
        ),
        Err(refusal) => turns::refused(server, refusal),
    }
}

// 3 where the sender is neither connected nor pending.
pub fn process_sealed(
    server: NetcodeServer,
    addr: Address,
    slots: &[u64],
    pending: &[u64],
    out: usize,
    datagram: &[u8],
    kind: PacketType,
) -> Turn
    requires { Shaped slots.now server.set.slots × Shaped pending.now server.set.pending × (18 ≤ length datagram.now) }
    ensures { result ≡ sealed_from (state server slots.now pending.now) out kind datagram.now (sender_in (state server slots.now pending.now) addr) }
{
    let set = server.set;
    let n = set.slots;
    let m = set.pending;
    match senders::find_sender(slots, n, pending, m, addr) {
        Sender::Connected(i) => { read_sealed(server, slots, n, true, i, kind, out, datagram) }
        Sender::Pending(j) => { read_sealed(server, pending, m, false, j, kind, out, datagram) }
        Sender::Unknown => turns::refused(server, Refusal(Why::Stranger)),
    }
}
