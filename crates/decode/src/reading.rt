// Decoding: what a datagram's head says, the ask to open it, and its body after the host's yes.
ghost use Rattle.std.specs.Prelude.{◌≡◌, ◌≤◌, length};
ghost use Rattle.refusal.specs.Verdicts.{verdict};
ghost use Rattle.asks.specs.Asks.{no_ask};
ghost use Rattle.decode.specs.Decodes.{decoded_as, ended, type_at, start_at, window_refusal, guard_refusal, guard_accepts, read_opened, decode_at, by_start, decode_sealed, decode_of, decode, answer_opened, answer_open};

use crate::{Decoded, Decoding, Opened, Opening, Start};
use asks::{NETCODE_KEY_BYTES, NETCODE_MAC_BYTES, Work};
use bodies::PacketType;
use refusal::{Refusal, Why};
use replay_protection::ReplayProtection;

// The least that a datagram has, as the Rust tests it: refusal 1.
const LEAST: usize = 2 + NETCODE_MAC_BYTES;

// A datagram's type: 1 where it is under 18 bytes, 2 where there is no such type.
pub fn read_type(datagram: &[u8]) -> Result<PacketType, Refusal>
    ensures { result ≡ type_at datagram.now }
{
    if datagram.len() < LEAST {
        return Err(Refusal(Why::DatagramShort));
    }
    let prefix_byte = datagram[0];
    PacketType::from_u8(prefix::decode_prefix(prefix_byte).kind)
}

// A sealed datagram's sequence and where its sealed part starts: 4 where the prefix claims over 8 sequence bytes.
pub fn read_start(datagram: &[u8]) -> Result<Start, Refusal>
    requires { 18 ≤ length datagram.now }
    ensures { result ≡ start_at datagram.now }
{
    let prefix_byte = datagram[0];
    let count = prefix::decode_prefix(prefix_byte).count;
    if count > 8 {
        return Err(Refusal(Why::SequenceLong));
    }
    Ok(Start {
        sequence: prefix::sequence_of(datagram, 1, count),
        start: 1 + count,
    })
}

// What the window says of a windowed packet's sequence: 5 or 6. Without a window, 5 alone.
fn window_refusal(guard: Option<ReplayProtection>, sequence: u64) -> Result<(), Refusal>
    ensures { result ≡ verdict (window_refusal guard sequence) }
{
    if let Some(window) = guard {
        return window.refusal(sequence);
    }
    if sequence > 0xffff_ffff_ffff_feff {
        return Err(Refusal(Why::SequenceLate));
    }
    Ok(())
}

// The same for a packet of any type: nothing refuses it where no window guards it.
pub fn guard_refusal(
    kind: PacketType,
    guard: Option<ReplayProtection>,
    sequence: u64,
) -> Result<(), Refusal>
    ensures { result ≡ verdict (guard_refusal kind guard sequence) }
{
    if kind.apply_replay_protection() {
        return window_refusal(guard, sequence);
    }
    Ok(())
}

// The window with the sequence accepted, if the type is windowed and there is one.
fn guard_accepts(kind: PacketType, guard: &mut Option<ReplayProtection>, sequence: u64)
    ensures { guard.new ≡ guard_accepts kind guard.old sequence }
{
    if kind.apply_replay_protection() {
        if let Some(window) = guard {
            window.advance_in_place(sequence);
        }
    }
}

// The packet whose opened body stands in the datagram from start to end: 9 where it is short.
pub fn read_opened(
    kind: PacketType,
    sequence: u64,
    datagram: &[u8],
    start: usize,
    end: usize,
) -> Decoding
    requires { (start ≤ end) × (end ≤ length datagram.now) }
    ensures { result ≡ read_opened kind sequence datagram.now start end }
{
    match bodies::read(kind, datagram, start, end - start) {
        Ok(packet) => Decoding::Read(Opened {
            sequence,
            packet,
            start,
            end,
        }),
        Err(refusal) => Decoding::Refused(refusal),
    }
}

// An answer that ends the call.
fn ended(answer: Decoding, guard: Option<ReplayProtection>) -> Decoded
    ensures { result ≡ ended answer guard }
{
    Decoded {
        answer,
        ask: asks::no_ask(),
        opening: None,
        guard,
    }
}

// Past the head of a sealed datagram: 5 or 6 by the window, then 7, else the ask.
fn decode_at(
    datagram: &[u8],
    kind: PacketType,
    protocol_id: u64,
    key: [u8; NETCODE_KEY_BYTES],
    sequence: u64,
    start: usize,
    guard: Option<ReplayProtection>,
) -> Decoded
    requires { 18 ≤ length datagram.now }
    ensures { result ≡ decode_at datagram.now kind protocol_id key sequence start guard }
{
    if let Err(refusal) = guard_refusal(kind, guard, sequence) {
        return ended(Decoding::Refused(refusal), guard);
    }
    let len = datagram.len();
    if asks::past(len, start, NETCODE_MAC_BYTES) {
        return ended(Decoding::Refused(Refusal(Why::TagMissing)), guard);
    }
    let prefix_byte = datagram[0];
    Decoded {
        answer: Decoding::Asked,
        ask: asks::packet_ask(
            Work::Open,
            key,
            sequence,
            prefix_byte,
            protocol_id,
            start,
            len,
        ),
        opening: Some(Opening {
            kind,
            sequence,
            start,
            len,
        }),
        guard,
    }
}

// A sealed datagram with a key: 4 by its head.
fn decode_keyed(
    datagram: &[u8],
    kind: PacketType,
    protocol_id: u64,
    key: [u8; NETCODE_KEY_BYTES],
    guard: Option<ReplayProtection>,
) -> Decoded
    requires { 18 ≤ length datagram.now }
    ensures { result ≡ by_start datagram.now kind protocol_id key guard (start_at datagram.now) }
{
    match read_start(datagram) {
        Ok(head) => decode_at(
            datagram,
            kind,
            protocol_id,
            key,
            head.sequence,
            head.start,
            guard,
        ),
        Err(refusal) => ended(Decoding::Refused(refusal), guard),
    }
}

// A datagram of a sealed type: 3 without a key.
fn decode_sealed(
    datagram: &[u8],
    kind: PacketType,
    protocol_id: u64,
    private_key: Option<[u8; NETCODE_KEY_BYTES]>,
    guard: Option<ReplayProtection>,
) -> Decoded
    requires { 18 ≤ length datagram.now }
    ensures { result ≡ decode_sealed datagram.now kind protocol_id private_key guard }
{
    match private_key {
        Some(key) => decode_keyed(datagram, kind, protocol_id, key, guard),
        None => ended(Decoding::Refused(Refusal(Why::Stranger)), guard),
    }
}

// A request is read in clear, after its prefix byte.
fn decode_of(
    datagram: &[u8],
    kind: PacketType,
    protocol_id: u64,
    private_key: Option<[u8; NETCODE_KEY_BYTES]>,
    guard: Option<ReplayProtection>,
) -> Decoded
    requires { 18 ≤ length datagram.now }
    ensures { result ≡ decode_of datagram.now kind protocol_id private_key guard }
{
    if kind.is_request() {
        let len = datagram.len();
        return ended(read_opened(kind, 0, datagram, 1, len), guard);
    }
    decode_sealed(datagram, kind, protocol_id, private_key, guard)
}

// A datagram, with the key and the window of its sender, if they are there: refused, or read, or to be opened.
pub fn decode(
    datagram: &[u8],
    protocol_id: u64,
    private_key: Option<[u8; NETCODE_KEY_BYTES]>,
    guard: Option<ReplayProtection>,
) -> Decoded
    ensures { result ≡ decode datagram.now protocol_id private_key guard }
{
    match read_type(datagram) {
        Ok(kind) => decode_of(datagram, kind, protocol_id, private_key, guard),
        Err(refusal) => ended(Decoding::Refused(refusal), guard),
    }
}

// What the answer to the open ask comes to, and the ask where it stays open.
fn answer_opened(
    opening: Opening,
    datagram: &[u8],
    guard: &mut Option<ReplayProtection>,
    granted: bool,
) -> (Decoding, Option<Opening>)
    ensures { decoded_as result.0 no_ask result.1 guard.new ≡ answer_opened opening.kind opening.sequence opening.start opening.len datagram.now guard.old granted }
{
    let kind = opening.kind;
    let sequence = opening.sequence;
    let start = opening.start;
    let len = opening.len;
    if asks::unlike(start, NETCODE_MAC_BYTES, len, datagram.len()) {
        return (Decoding::Refused(Refusal(Why::AnswerUnfit)), Some(opening));
    }
    if granted {
        guard_accepts(kind, guard, sequence);
        return (
            read_opened(kind, sequence, datagram, start, len - NETCODE_MAC_BYTES),
            None,
        );
    }
    (Decoding::Refused(Refusal(Why::NotOpened)), None)
}

// The host's answer to the ask that is open: 17 where none is. The window moves after a yes alone, and before the body is read.
pub fn answer_open(
    opening: Option<Opening>,
    datagram: &[u8],
    guard: Option<ReplayProtection>,
    granted: bool,
) -> Decoded
    ensures { result ≡ answer_open opening datagram.now guard granted }
{
    let mut left = guard;
    let (answer, kept) = match opening {
        Some(ask) => answer_opened(ask, datagram, &mut left, granted),
        None => (Decoding::Refused(Refusal(Why::NoAsk)), None),
    };
    Decoded {
        answer,
        ask: asks::no_ask(),
        opening: kept,
        guard: left,
    }
}
