// Encoding: head and body into a lent buffer, and the ask to seal them.
ghost use Rattle.std.specs.Prelude.{◌≡◌, not, ◌&&◌, ◌+◌, ◌≤◌, length, is_some};
ghost use Rattle.serialize.specs.Runs.{splice};
ghost use Rattle.prefix.specs.Head.{head_bytes};
ghost use Rattle.bodies.specs.Kinds.{number_of, is_request};
ghost use Rattle.asks.specs.Asks.{no_ask};
ghost use Rattle.refusal.specs.Verdicts.{verdict};
ghost use Rattle.encode.specs.Encodes.{done, encoded_as, refused_by, shown, tag_places, body_at, need, unencodable, written_as, encode, answer_seal, answer_seal_open};

use crate::{Encoded, Encoding, Sealing};
use asks::{NETCODE_KEY_BYTES, NETCODE_MAC_BYTES, Work};
use bodies::{Packet, PacketType};
use refusal::{Refusal, Why};

// An answer that asks for nothing.
pub fn answered(answer: Encoding, sealing: Option<Sealing>) -> Encoded
    ensures { result ≡ encoded_as answer no_ask sealing }
{
    Encoded {
        answer,
        ask: asks::no_ask(),
        sealing,
    }
}

// Refused, and no ask is open then.
pub fn refused(refusal: Refusal) -> Encoded
    ensures { result ≡ refused_by refusal }
{
    answered(Encoding::Refused(refusal), None)
}

// The sequence that the head shows: a request's shows none.
#[tactic(auto, unfolding(crate::specs::Encodes::shown, serialize::specs::Choice::pick))]
fn shown(kind: PacketType, sequence: u64) -> u64
    ensures { result ≡ shown kind sequence }
{
    if kind.is_request() { 0 } else { sequence }
}

// The places of the tag: a request has none.
#[tactic(auto, unfolding(crate::specs::Encodes::tag_places, serialize::specs::Choice::pick))]
fn tag_places(kind: PacketType) -> usize
    ensures { (result ≡ tag_places kind) × (result ≤ 16) }
{
    if kind.is_request() {
        0
    } else {
        NETCODE_MAC_BYTES
    }
}

// Where the body starts.
#[tactic(auto, using(prefix::proofs::Fewest::fewest_le))]
fn body_at(kind: PacketType, sequence: u64) -> usize
    ensures { (result ≡ body_at kind sequence) × (result ≤ 9) }
{
    1 + prefix::sequence_bytes_required(shown(kind, sequence))
}

// No key, and the packet is no request.
fn lacks_key(kind: PacketType, keyed: bool) -> bool
    ensures { result ≡ not keyed && not (is_request kind) }
{
    !keyed && !kind.is_request()
}

// What refuses the packet before anything is written.
#[tactic(auto, unfolding(crate::specs::Encodes::unencodable, serialize::specs::Choice::pick, refusal::specs::Verdicts::verdict))]
fn unencodable(
    room: usize,
    kind: PacketType,
    given: usize,
    keyed: bool,
    sequence: u64,
) -> Result<(), Refusal>
    ensures { result ≡ verdict (unencodable room kind given keyed sequence) }
{
    if lacks_key(kind, keyed) {
        return Err(Refusal(Why::Stranger));
    }
    let fixed = body_at(kind, sequence) + tag_places(kind);
    if asks::past(room, fixed, kind.body_len(given)) {
        return Err(Refusal(Why::OutputShort));
    }
    if given < kind.wants() {
        return Err(Refusal(Why::BodyShort));
    }
    Ok(())
}

// Prefix byte and sequence, from the buffer's start; where the body starts.
fn write_head(out: &mut [u8], kind: PacketType, sequence: u64) -> usize
    requires { body_at kind sequence ≤ length out.old }
    ensures { (result ≡ body_at kind sequence) × (out.new ≡ splice out.old 0 (head_bytes (number_of kind) (shown kind sequence))) }
{
    let seq = shown(kind, sequence);
    out[0] = prefix::encode_prefix(kind.to_u8(), seq);
    let count = prefix::write_sequence(out, 1, seq);
    1 + count
}

// What is written is a whole request, or is to be sealed from its body on.
fn written(
    room: usize,
    kind: PacketType,
    given: usize,
    protocol_id: u64,
    private_key: Option<[u8; NETCODE_KEY_BYTES]>,
    sequence: u64,
) -> Encoded
    requires { need kind given sequence ≤ room }
    ensures { result ≡ written_as room kind given protocol_id private_key sequence }
{
    let start = body_at(kind, sequence);
    let end = start + kind.body_len(given) + tag_places(kind);
    if kind.is_request() {
        return answered(Encoding::Length(end), None);
    }
    let prefix_byte = prefix::encode_prefix(kind.to_u8(), sequence);
    let key = private_key.unwrap_or([0; NETCODE_KEY_BYTES]);
    let ask = asks::packet_ask(
        Work::Seal,
        key,
        sequence,
        prefix_byte,
        protocol_id,
        start,
        end,
    );
    Encoded {
        answer: Encoding::Asked,
        ask,
        sealing: Some(Sealing { end, len: room }),
    }
}

// The packet with its bytes beside it into out: refused, or whole, or to be sealed.
pub fn encode(
    out: &mut [u8],
    packet: Packet,
    bytes: &[u8],
    protocol_id: u64,
    private_key: Option<[u8; NETCODE_KEY_BYTES]>,
    sequence: u64,
) -> Encoded
    ensures { done result out.new ≡ encode out.old packet bytes.now protocol_id private_key sequence }
{
    let kind = packet.packet_type();
    let room = out.len();
    let given = bytes.len();
    if let Err(refusal) = unencodable(room, kind, given, private_key.is_some(), sequence) {
        return refused(refusal);
    }
    let start = write_head(out, kind, sequence);
    bodies::write(out, start, packet, bytes);
    written(room, kind, given, protocol_id, private_key, sequence)
}

// The answer to an ask that is open, for a lent buffer of this length: of another length it leaves the ask open.
#[tactic(auto, unfolding(crate::specs::Encodes::answer_seal_open, serialize::specs::Choice::pick))]
fn answer_seal_open(sealing: Sealing, room: usize, granted: bool) -> Encoded
    ensures { result ≡ answer_seal_open sealing.end sealing.len room granted }
{
    if asks::unlike(sealing.end, 0, sealing.len, room) {
        return answered(Encoding::Refused(Refusal(Why::AnswerUnfit)), Some(sealing));
    }
    if granted {
        return answered(Encoding::Length(sealing.end), None);
    }
    refused(Refusal(Why::NotSealed))
}

// The host's answer to an ask to seal, of a packet or of a challenge token.
pub fn answer_seal(sealing: Option<Sealing>, out: &[u8], granted: bool) -> Encoded
    ensures { result ≡ answer_seal sealing (length out.now) granted }
{
    match sealing {
        None => refused(Refusal(Why::NoAsk)),
        Some(open) => answer_seal_open(open, out.len(), granted),
    }
}
