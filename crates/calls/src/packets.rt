// Packets: encode and decode, and the host's answers. What is kept open between a call and its answer lies on the desk.
ghost use Rattle.std.specs.Prelude.{◌≡◌, ◌&&◌, is_some};
ghost use Rattle.calls.specs.Heads.{written};
ghost use Rattle.calls.specs.Packets.{handed, placed, encode_call, answer_seal_call, guard_of, decode_call, answer_open_call, window_left, field_of, field_call};

use crate::desk;
use bodies::PacketType;
use decode::Opening;
use replay_protection::ReplayProtection;

// The packet of a type and two numbers, with its bytes beside it, into out: 2 for a type over 6.
pub fn pump_encode(
    out: &mut [u8],
    kind: u8,
    a: u64,
    b: u64,
    bytes: &[u8],
    protocol_id: u64,
    keyed: bool,
    key: &[u8; 32],
    sequence: u64,
    words: &mut [u64; 16],
    told: &mut [u8; 66],
)
    ensures { handed words.new told.new out.new ≡ encode_call out.old kind a b bytes.now protocol_id keyed key.now sequence }
{
    match PacketType::from_u8(kind) {
        Ok(known) => {
            let packet = desk::packet_of(known, a, b);
            let encoded = encode::encode(
                out,
                packet,
                bytes,
                protocol_id,
                keyed.then_some(*key),
                sequence,
            );
            let ask = encoded.ask;
            *words = desk::encoded_desk(encoded);
            *told = desk::told_of(ask);
        }
        Err(refusal) => {
            *words = desk::refused_desk(u64::from(refusal.number()));
            *told = [0; 66];
        }
    }
}

// The host's answer to an ask to seal, of a packet or of a challenge token.
pub fn pump_answer_seal(out: &[u8], granted: bool, words: &mut [u64; 16])
    ensures { words.new ≡ answer_seal_call words.old out.now granted }
{
    let sealing = desk::sealing_of(desk::kept_on(words));
    let encoded = encode::answer_seal(sealing, out, granted);
    *words = desk::encoded_desk(encoded);
}

fn guard_of(given: bool, words: &[u64; 257]) -> Option<ReplayProtection>
    ensures { result ≡ guard_of given words.now }
{
    if given {
        Some(replay_protection::load_window(words, 0))
    } else {
        None
    }
}

// The window goes back into its words, if there is one.
fn put_back(window: &mut [u64; 257], guard: Option<ReplayProtection>)
    ensures { window.new ≡ window_left window.old guard }
{
    if let Some(left) = guard {
        replay_protection::store_window(window, 0, left);
    }
}

// A datagram, with the key and the window of its sender, if they are there. Before the host's answer no window moves, so none is stored.
pub fn pump_decode(
    datagram: &[u8],
    protocol_id: u64,
    keyed: bool,
    key: &[u8; 32],
    guarded: bool,
    window: &mut [u64; 257],
    words: &mut [u64; 16],
    told: &mut [u8; 66],
)
    ensures { handed words.new told.new window.new ≡ decode_call datagram.now protocol_id keyed key.now guarded window.old }
{
    let decoded = decode::decode(
        datagram,
        protocol_id,
        keyed.then_some(*key),
        guard_of(guarded, window),
    );
    let ask = decoded.ask;
    *words = desk::decoded_desk(decoded);
    *told = desk::told_of(ask);
}

// Only a yes to an open ask can move the window: for every other answer it stays where it lies.
fn is_moving(guarded: bool, granted: bool, opening: Option<Opening>) -> bool
    ensures { result ≡ guarded && (granted && is_some opening) }
{
    guarded && granted && opening.is_some()
}

// The host's answer to an ask to open.
pub fn pump_answer_open(
    datagram: &[u8],
    guarded: bool,
    window: &mut [u64; 257],
    granted: bool,
    words: &mut [u64; 16],
)
    ensures { placed words.new window.new ≡ answer_open_call words.old datagram.now guarded window.old granted }
{
    let opening = desk::opening_of(desk::kept_on(words));
    let guarded = is_moving(guarded, granted, opening);
    let decoded = decode::answer_open(opening, datagram, guard_of(guarded, window), granted);
    put_back(window, decoded.guard);
    *words = desk::decoded_desk(decoded);
}

// A part of a body that stands from at to end: version, nonce, private data, token data, or else all of it.
fn field_of(which: u8, src: &[u8], at: usize, end: usize) -> &[u8]
    ensures { result.now ≡ field_of which src.now at end }
{
    match which {
        0 => bodies::version_info(src, at),
        1 => bodies::xnonce(src, at),
        2 => bodies::private_data(src, at),
        3 => bodies::token_data(src, at),
        _ => bodies::payload(src, at, end),
    }
}

// That part's length; it is copied to the start of out, if it fits there.
pub fn pump_field(which: u8, src: &[u8], at: usize, end: usize, out: &mut [u8]) -> usize
    ensures { written result out.new ≡ field_call (field_of which src.now at end) out.old }
{
    let field = field_of(which, src, at, end);
    let n = field.len();
    if out.len() < n {
        return n;
    }
    serialize::copy(out, 0, field, 0, n);
    n
}
