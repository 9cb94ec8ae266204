// A payload to a client on its short way, and a client that nothing is due for: the ask to seal, the host's yes to it and the client's
// turn, on the record's words alone. Whatever is anything else goes the general way.
ghost use Rattle.std.specs.Prelude.{◌≡◌, true, ◌+◌, ◌≤◌, ◌<◌, length, get_or};
ghost use Rattle.refusal.specs.Verdicts.{verdict};
ghost use Rattle.bodies.specs.declared.PacketType.TheVariants as kind;
ghost use Rattle.encode.specs.Encodes.{need};
ghost use Rattle.places.specs.Layout.{Shaped};
ghost use Rattle.server.specs.Ready.{slots_refusal};
ghost use Rattle.netcode.specs.Laid.{set_up_in};
ghost use Rattle.netcode.specs.Told.{desk};
ghost use Rattle.netcode.specs.Calls.{spoke, spoke_as};
ghost use Rattle.netcode.specs.Speaking.{counter_in, Room, Sends, payload_sent, SealsSent, Sent, slot_sent, noted, sent_noted, Rests, Quiet, nothing_due};

use crate::{record, steps};
use asks::NETCODE_MAC_BYTES;
use bodies::Packet;
use refusal::Refusal;
use server::Answer;
use times::Time;
use turns::MOST;

// More than this a payload does not carry.
const NETCODE_MAX_PAYLOAD_BYTES: usize = 1300;

// The 32 bits of an i32 from here on are of a number below 0.
const BELOW_ZERO: u32 = 2147483648;

// 23 by the slots' length: of what set-up fixed, only the number of places counts.
fn slots_refusal(words: &[u64; 34], slots: usize) -> Result<(), Refusal>
    ensures { result ≡ verdict (slots_refusal (set_up_in words.now) slots) }
{
    server::slots_refusal(record::places_only(words[0] as usize, 0), slots)
}

// ---- a payload to be sealed

// Slot i's counter can be raised, and the output holds its packet.
fn has_room(slots: &[u64], n: usize, i: usize, payload: usize, out: usize) -> bool
    requires { Shaped slots.now n × (i < n) × (payload ≤ 1300) }
    ensures { result ≡ true → Room slots.now n i payload out }
{
    let sequence = records::sequence(slots, n, i);
    if sequence == MOST {
        return false;
    }
    1 + prefix::sequence_bytes_required(sequence) + payload + NETCODE_MAC_BYTES <= out
}

// The slot that the payload goes to, where nothing refuses it.
pub fn can_send(
    words: &[u64; 34],
    client_id: u64,
    payload: usize,
    slots: &[u64],
    out: usize,
) -> Option<usize>
    ensures { Sends words.now client_id payload slots.now out result }
{
    if words[11] != 0 {
        return None;
    }
    if slots_refusal(words, slots.len()).is_err() {
        return None;
    }
    if payload > NETCODE_MAX_PAYLOAD_BYTES {
        return None;
    }
    let n = words[0] as usize;
    let i = places::find_by_id(slots, n, client_id)?;
    if has_room(slots, n, i, payload, out) {
        return Some(i);
    }
    None
}

// The payload in clear in the output, and the ask to seal it.
pub fn send_payload(
    words: &mut [u64; 34],
    slots: &[u64],
    i: usize,
    payload: &[u8],
    out: &mut [u8],
    answer: &mut [u64; 14],
    ask: &mut [u8; 85],
)
    requires { Shaped slots.now (get_or words.old 0 0) × (i < get_or words.old 0 0) × (need kind.Payload (length payload.now) (counter_in slots.now (get_or words.old 0 0) i) ≤ length out.old) }
    ensures { spoke (desk words.new answer.new ask.new) out.new ≡ spoke_as (desk words.old answer.old ask.old) (payload_sent words.old slots.now i payload.now out.old) }
{
    let n = words[0] as usize;
    let sequence = records::sequence(slots, n, i);
    let key = records::send_key(slots, n, i);
    let len = out.len();
    let wanted = turns::write_packet_with(out, Packet::Payload, payload, words[5], key, sequence);
    let rest = [
        0,
        i as u64,
        0,
        sequence,
        wanted.end as u64,
        0,
        0,
        0,
        0,
        0,
        0,
        0,
    ];
    steps::lay_asking(words, 8, 0, len, &rest, wanted, answer, ask);
}

// ---- the host's yes to a packet of a slot

// The open ask is to seal a packet of a slot, and is answered with yes.
fn is_sending_step(words: &[u64; 34], granted: u8) -> bool
    ensures { result ≡ true → SealsSent words.now granted }
{
    if granted == 0 {
        return false;
    }
    words[11] == 8
}

// And the tables and the output are those that it was asked with.
pub fn is_sent(words: &[u64; 34], granted: u8, slots: &[u64], pending: &[u64], out: usize) -> bool
    ensures { result ≡ true → Sent words.now granted slots.now pending.now out }
{
    if is_sending_step(words, granted) {
        if record::tables_refusal(words, slots.len(), pending.len()).is_err() {
            return false;
        }
        if out as u64 != words[13] {
            return false;
        }
        if words[23] >= words[0] {
            return false;
        }
        if words[25] >= MOST {
            return false;
        }
        return words[26] <= out as u64;
    }
    false
}

// The slot's counter moves, then its sent time.
fn put_sent(words: &[u64; 34], slots: &mut [u64])
    requires { Shaped slots.old (get_or words.now 0 0) × (get_or words.now 23 0 < get_or words.now 0 0) × (get_or words.now 25 0 + 1 < 18446744073709551616) }
    ensures { slots.new ≡ slot_sent words.now slots.old }
{
    let n = words[0] as usize;
    let i = words[23] as usize;
    let clock = Time {
        secs: words[7],
        nanos: words[8],
    };
    records::set_sequence(slots, n, i, words[25] + 1);
    records::set_sent_time(slots, n, i, clock);
}

// A packet of a slot that was sealed goes out.
pub fn note_sent(
    words: &mut [u64; 34],
    slots: &mut [u64],
    answer: &mut [u64; 14],
    ask: &mut [u8; 85],
)
    requires { Shaped slots.old (get_or words.old 0 0) × (get_or words.old 23 0 < get_or words.old 0 0) × (get_or words.old 25 0 + 1 < 18446744073709551616) }
    ensures { noted (desk words.new answer.new ask.new) slots.new ≡ sent_noted (desk words.old answer.old ask.old) slots.old }
{
    let end = words[26] as usize;
    let addr = places::address(slots, words[0] as usize, words[23] as usize);
    put_sent(words, slots);
    steps::lay_quiet(words, 0, 0, Answer::PacketToSend { addr, end }, answer, ask);
}

// ---- a client that nothing is due for

// Slot i is neither overdue nor silent.
fn rests(slots: &[u64], n: usize, i: usize, clock: Time) -> bool
    requires { Shaped slots.now n × (i < n) }
    ensures { result ≡ true → Rests slots.now n i clock }
{
    let sent = records::sent_time(slots, n, i);
    if sent.is_due(clock) {
        return false;
    }
    let timeout = records::timeout_seconds(slots, n, i);
    if timeout == 0 {
        return true;
    }
    if timeout >= BELOW_ZERO {
        return true;
    }
    let received = records::received_time(slots, n, i);
    !received.is_past(timeout, clock)
}

// The client's turn comes to nothing.
pub fn is_quiet(words: &[u64; 34], client_id: u64, slots: &[u64]) -> bool
    ensures { result ≡ true → Quiet words.now client_id slots.now }
{
    if words[11] != 0 {
        return false;
    }
    if slots_refusal(words, slots.len()).is_err() {
        return false;
    }
    let n = words[0] as usize;
    match places::find_by_id(slots, n, client_id) {
        Some(i) => {
            let clock = Time {
                secs: words[7],
                nanos: words[8],
            };
            rests(slots, n, i, clock)
        }
        None => true,
    }
}

// Nothing is said, and the record stays.
pub fn rest(words: &mut [u64; 34], answer: &mut [u64; 14], ask: &mut [u8; 85])
    requires { get_or words.old 11 0 ≡ 0 }
    ensures { desk words.new answer.new ask.new ≡ nothing_due (desk words.old answer.old ask.old) }
{
    let datagram = words[12] as usize;
    let out = words[13] as usize;
    steps::lay_quiet(words, datagram, out, Answer::Nothing, answer, ask);
}
