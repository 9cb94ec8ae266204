// The desk: sixteen words in which every call of `packets` and `tokens` answers. 0: refused 0, asked 1, done 2. 1: the refusal's
// number, or the packet's length. 2 to 7, of a packet that was read: sequence, type, its two numbers, and where its body starts and
// ends; of a challenge token 4 is its client. 8 to 11, of an ask: open 0, seal 1; the size of its additional data; where its part
// starts and ends. 12 to 15, what is kept open, 12 being 0 for nothing: the answer finds it there.
ghost use Rattle.std.specs.Prelude.{◌≡◌, ◌-◌, ◌%◌, ◌^◌, ◌<◌};
ghost use Rattle.bodies.specs.Kinds.{type_of};
ghost use Rattle.calls.specs.Desk.{work_code, told_of, laid, no_show, no_kept, kept_on, said_encoding, kept_sealing, encoded_desk, refused_desk, sealing_of, first_of, second_of, packet_of, said_decoding, shown_of, kept_opening, decoded_desk, opening_of, said_proving, kept_proof, challenged_desk, proof_opening_of};

use asks::{Ask, Work};
use bodies::{Packet, PacketType};
use decode::{Challenged, Decoded, Decoding, Opened, Opening, ProofOpening, Proving};
use encode::{Encoded, Encoding, Sealing};
use refusal::Refusal;

// Words 0 and 1.
#[derive(Clone, Copy)]
pub struct Said {
    pub code: u64,
    pub value: u64,
}

// Words 2 to 7.
#[derive(Clone, Copy)]
pub struct Shown {
    pub sequence: u64,
    pub kind: u64,
    pub first: u64,
    pub second: u64,
    pub start: u64,
    pub end: u64,
}

// Words 12 to 15: of an ask to open one more than the type, the sequence, the place and the length; of the others 1, 0, the place,
// which of an ask to seal is its end, and the length.
#[derive(Clone, Copy)]
pub struct Kept {
    pub code: u64,
    pub sequence: u64,
    pub place: u64,
    pub len: u64,
}

// ---- the layout

fn work_code(work: Work) -> u64
    ensures { result ≡ work_code work }
{
    match work {
        Work::Open => 0,
        Work::Seal => 1,
    }
}

fn lay(said: Said, shown: Shown, ask: Ask, kept: Kept) -> [u64; 16]
    ensures { result ≡ laid said shown ask kept }
{
    let work = ask.work;
    [
        said.code,
        said.value,
        shown.sequence,
        shown.kind,
        shown.first,
        shown.second,
        shown.start,
        shown.end,
        work_code(work),
        ask.size as u64,
        ask.start as u64,
        ask.end as u64,
        kept.code,
        kept.sequence,
        kept.place,
        kept.len,
    ]
}

// The bytes that go to the cipher: key, nonce, additional data.
pub fn told_of(ask: Ask) -> [u8; 66]
    ensures { result ≡ told_of ask }
{
    let mut told = [0u8; 66];
    serialize::copy(&mut told, 0, &ask.key, 0, 32);
    serialize::copy(&mut told, 32, &ask.nonce, 0, 12);
    serialize::copy(&mut told, 44, &ask.additional, 0, 22);
    told
}

fn no_show() -> Shown
    ensures { result ≡ no_show }
{
    Shown {
        sequence: 0,
        kind: 0,
        first: 0,
        second: 0,
        start: 0,
        end: 0,
    }
}

fn no_kept() -> Kept
    ensures { result ≡ no_kept }
{
    Kept {
        code: 0,
        sequence: 0,
        place: 0,
        len: 0,
    }
}

// What the desk says is kept open.
pub fn kept_on(words: &[u64; 16]) -> Kept
    ensures { result ≡ kept_on words.now }
{
    Kept {
        code: words[12],
        sequence: words[13],
        place: words[14],
        len: words[15],
    }
}

// ---- encoding

fn said_encoding(answer: Encoding) -> Said
    ensures { result ≡ said_encoding answer }
{
    match answer {
        Encoding::Refused(refusal) => Said {
            code: 0,
            value: u64::from(refusal.number()),
        },
        Encoding::Asked => Said { code: 1, value: 0 },
        Encoding::Length(len) => Said {
            code: 2,
            value: len as u64,
        },
    }
}

fn kept_sealing(sealing: Option<Sealing>) -> Kept
    ensures { result ≡ kept_sealing sealing }
{
    match sealing {
        Some(open) => Kept {
            code: 1,
            sequence: 0,
            place: open.end as u64,
            len: open.len as u64,
        },
        None => no_kept(),
    }
}

pub fn encoded_desk(encoded: Encoded) -> [u64; 16]
    ensures { result ≡ encoded_desk encoded }
{
    let answer = encoded.answer;
    let sealing = encoded.sealing;
    let ask = encoded.ask;
    lay(said_encoding(answer), no_show(), ask, kept_sealing(sealing))
}

// A refusal by number, and nothing else.
pub fn refused_desk(number: u64) -> [u64; 16]
    ensures { result ≡ refused_desk number }
{
    [0, number, 0, 0, 0, 0, 0, 0, 0, 0, 0, 0, 0, 0, 0, 0]
}

pub fn sealing_of(kept: Kept) -> Option<Sealing>
    ensures { result ≡ sealing_of kept }
{
    if kept.code == 0 {
        return None;
    }
    Some(Sealing {
        end: kept.place as usize,
        len: kept.len as usize,
    })
}

// ---- packets

fn first(packet: Packet) -> u64
    ensures { result ≡ first_of packet }
{
    match packet {
        Packet::ConnectionRequest {
            protocol_id,
            expire_timestamp: _,
        } => protocol_id,
        Packet::ConnectionDenied => 0,
        Packet::Challenge { token_sequence } => token_sequence,
        Packet::Response { token_sequence } => token_sequence,
        Packet::KeepAlive {
            client_index,
            max_clients: _,
        } => client_index as u64,
        Packet::Payload => 0,
        Packet::Disconnect => 0,
    }
}

fn second(packet: Packet) -> u64
    ensures { result ≡ second_of packet }
{
    match packet {
        Packet::ConnectionRequest {
            protocol_id: _,
            expire_timestamp,
        } => expire_timestamp,
        Packet::ConnectionDenied => 0,
        Packet::Challenge { token_sequence: _ } => 0,
        Packet::Response { token_sequence: _ } => 0,
        Packet::KeepAlive {
            client_index: _,
            max_clients,
        } => max_clients as u64,
        Packet::Payload => 0,
        Packet::Disconnect => 0,
    }
}

fn low(x: u64) -> u32
    ensures { result ≡ x % 2 ^ 32 }
{
    (x % 0x1_0000_0000) as u32
}

// The packet of a type and two numbers.
pub fn packet_of(kind: PacketType, a: u64, b: u64) -> Packet
    ensures { result ≡ packet_of kind a b }
{
    match kind {
        PacketType::ConnectionRequest => Packet::ConnectionRequest {
            protocol_id: a,
            expire_timestamp: b,
        },
        PacketType::ConnectionDenied => Packet::ConnectionDenied,
        PacketType::Challenge => Packet::Challenge { token_sequence: a },
        PacketType::Response => Packet::Response { token_sequence: a },
        PacketType::KeepAlive => Packet::KeepAlive {
            client_index: low(a),
            max_clients: low(b),
        },
        PacketType::Payload => Packet::Payload,
        PacketType::Disconnect => Packet::Disconnect,
    }
}

// ---- decoding

fn said_decoding(answer: &Decoding) -> Said
    ensures { result ≡ said_decoding answer.now }
{
    match *answer {
        Decoding::Refused(refusal) => Said {
            code: 0,
            value: u64::from(refusal.number()),
        },
        Decoding::Asked => Said { code: 1, value: 0 },
        Decoding::Read(_) => Said { code: 2, value: 0 },
    }
}

fn show(opened: Opened) -> Shown
    ensures { result ≡ shown_of (Decoding.Read opened) }
{
    let packet = opened.packet;
    Shown {
        sequence: opened.sequence,
        kind: packet.id() as u64,
        first: first(packet),
        second: second(packet),
        start: opened.start as u64,
        end: opened.end as u64,
    }
}

fn shown_of(answer: Decoding) -> Shown
    ensures { result ≡ shown_of answer }
{
    match answer {
        Decoding::Refused(_) => no_show(),
        Decoding::Asked => no_show(),
        Decoding::Read(opened) => show(opened),
    }
}

fn kept_opening(opening: Option<Opening>) -> Kept
    ensures { result ≡ kept_opening opening }
{
    match opening {
        Some(open) => Kept {
            code: 1 + open.kind.to_u8() as u64,
            sequence: open.sequence,
            place: open.start as u64,
            len: open.len as u64,
        },
        None => no_kept(),
    }
}

pub fn decoded_desk(decoded: Decoded) -> [u64; 16]
    ensures { result ≡ decoded_desk decoded }
{
    let answer = decoded.answer;
    let opening = decoded.opening;
    let ask = decoded.ask;
    lay(
        said_decoding(&answer),
        shown_of(answer),
        ask,
        kept_opening(opening),
    )
}

// The type that a code of something kept open is of.
fn kept_type(code: u64) -> Result<PacketType, Refusal>
    requires { 0 < code }
    ensures { result ≡ type_of ((code - 1) % 256) }
{
    PacketType::from_u8(((code - 1) % 256) as u8)
}

pub fn opening_of(kept: Kept) -> Option<Opening>
    ensures { result ≡ opening_of kept }
{
    if kept.code == 0 {
        return None;
    }
    match kept_type(kept.code) {
        Ok(kind) => Some(Opening {
            kind,
            sequence: kept.sequence,
            start: kept.place as usize,
            len: kept.len as usize,
        }),
        Err(_) => None,
    }
}

// ---- challenge tokens

fn said_proving(answer: Proving) -> Said
    ensures { result ≡ said_proving answer }
{
    match answer {
        Proving::Refused(refusal) => Said {
            code: 0,
            value: u64::from(refusal.number()),
        },
        Proving::Asked => Said { code: 1, value: 0 },
        Proving::Proved => Said { code: 2, value: 0 },
    }
}

fn kept_proof(opening: Option<ProofOpening>) -> Kept
    ensures { result ≡ kept_proof opening }
{
    match opening {
        Some(open) => Kept {
            code: 1,
            sequence: 0,
            place: open.at as u64,
            len: open.len as u64,
        },
        None => no_kept(),
    }
}

pub fn challenged_desk(challenged: Challenged) -> [u64; 16]
    ensures { result ≡ challenged_desk challenged }
{
    let answer = challenged.answer;
    let opening = challenged.opening;
    let ask = challenged.ask;
    let mut shown = no_show();
    shown.first = challenged.token.client_id;
    lay(said_proving(answer), shown, ask, kept_proof(opening))
}

pub fn proof_opening_of(kept: Kept) -> Option<ProofOpening>
    ensures { result ≡ proof_opening_of kept }
{
    if kept.code == 0 {
        return None;
    }
    Some(ProofOpening {
        at: kept.place as usize,
        len: kept.len as usize,
    })
}
