// A payload on its short way: a keep-alive, payload or disconnect from a connected address is looked at, and a payload that was opened is
// taken, on the record's words alone. Whatever is anything else goes the general way.
ghost use Rattle.std.specs.Prelude.{◌≡◌, true, ◌≤◌, ◌<◌, length, get_or};
ghost use Rattle.places.specs.Layout.{Shaped};
ghost use Rattle.turns.specs.Outcomes.{state};
ghost use Rattle.arrivals.specs.Arrivals.{arrival_refusal, open_asked};
ghost use Rattle.netcode.specs.Laid.{record_in};
ghost use Rattle.netcode.specs.Told.{desk};
ghost use Rattle.netcode.specs.Calls.{turn_on};
ghost use Rattle.netcode.specs.Quick.{Tested, Sees, Opens, Hears, taken, payload_taken, heard, payload_heard};

use crate::{Sealed, record, steps};
use addresses::Address;
use asks::{NETCODE_MAC_BYTES, Work};
use bodies::PacketType;
use decode::Start;
use server::Answer;
use times::Time;
use turns::NETCODE_MAX_PACKET_BYTES;

// Slot i's packet by its head, the window and its length.
fn test(slots: &[u64], n: usize, i: usize, kind: PacketType, datagram: &[u8]) -> Option<Sealed>
    requires { Shaped slots.now n × (i < n) × (18 ≤ length datagram.now) }
    ensures { Tested slots.now n i kind datagram.now result }
{
    let Start { sequence, start } = decode::read_start(datagram).ok()?;
    if !kind.apply_replay_protection() {
        return None;
    }
    if records::window_refusal(slots, n, i, sequence).is_err() {
        return None;
    }
    if asks::past(datagram.len(), start, NETCODE_MAC_BYTES) {
        return None;
    }
    Some(Sealed {
        place: i,
        kind,
        sequence,
        start,
    })
}

// A datagram that the call's first tests let through, by its type and its sender.
fn find(
    words: &[u64; 34],
    addr: Address,
    slots: &[u64],
    pending: &[u64],
    out: usize,
    datagram: &[u8],
) -> Option<Sealed>
    requires { arrival_refusal (state (record_in words.now) slots.now pending.now) addr out ≡ 0 }
    ensures { Sees (state (record_in words.now) slots.now pending.now) addr out datagram.now result }
{
    let kind = decode::read_type(datagram).ok()?;
    let n = words[0] as usize;
    let i = places::find_by_address(slots, n, addr)?;
    test(slots, n, i, kind, datagram)
}

pub fn look(
    words: &[u64; 34],
    addr: Address,
    slots: &[u64],
    pending: &[u64],
    out: usize,
    datagram: &[u8],
) -> Option<Sealed>
    ensures { Sees (state (record_in words.now) slots.now pending.now) addr out datagram.now result }
{
    if words[11] != 0 {
        return None;
    }
    if record::tables_refusal(words, slots.len(), pending.len()).is_err() {
        return None;
    }
    if out < NETCODE_MAX_PACKET_BYTES {
        return None;
    }
    if addr.refusal().is_err() {
        return None;
    }
    find(words, addr, slots, pending, out, datagram)
}

// The ask to open what was seen.
pub fn ask_open(
    words: &mut [u64; 34],
    slots: &[u64],
    seen: Sealed,
    out: usize,
    datagram: &[u8],
    answer: &mut [u64; 14],
    ask: &mut [u8; 85],
)
    requires { Shaped slots.now (get_or words.old 0 0) × (seen.place < get_or words.old 0 0) × (18 ≤ length datagram.now) }
    ensures { desk words.new answer.new ask.new ≡ turn_on (desk words.old answer.old ask.old) (open_asked (record_in words.old) slots.now (get_or words.old 0 0) true seen.place seen.kind seen.sequence seen.start out datagram.now) }
{
    let Sealed {
        place,
        kind,
        sequence,
        start,
    } = seen;
    let len = datagram.len();
    let prefix_byte = datagram[0];
    let key = records::receive_key(slots, words[0] as usize, place);
    let asked = asks::packet_ask(Work::Open, key, sequence, prefix_byte, words[5], start, len);
    let wanted = server::packet_ask(asked);
    let number = kind.to_u8();
    let rest = [
        place as u64,
        0,
        number as u64,
        sequence,
        start as u64,
        1,
        0,
        0,
        0,
        0,
        0,
        0,
    ];
    steps::lay_asking(words, 1, len, out, &rest, wanted, answer, ask);
}

// The open ask is for a payload of a slot, and is answered with yes and the same buffers.
fn is_payload_step(words: &[u64; 34], granted: u8) -> bool
    ensures { result ≡ true → Opens words.now granted }
{
    if granted == 0 {
        return false;
    }
    if words[11] != 1 {
        return false;
    }
    if words[24] != 5 {
        return false;
    }
    words[27] != 0
}

pub fn is_payload(
    words: &[u64; 34],
    granted: u8,
    slots: &[u64],
    pending: &[u64],
    datagram: usize,
    out: usize,
) -> bool
    ensures { result ≡ true → Hears words.now granted slots.now pending.now datagram out }
{
    if is_payload_step(words, granted) {
        if record::tables_refusal(words, slots.len(), pending.len()).is_err() {
            return false;
        }
        if datagram as u64 != words[12] {
            return false;
        }
        if out as u64 != words[13] {
            return false;
        }
        if out < NETCODE_MAX_PACKET_BYTES {
            return false;
        }
        if words[22] >= words[0] {
            return false;
        }
        return !asks::past(datagram, words[26] as usize, NETCODE_MAC_BYTES);
    }
    false
}

// The window moves, then the received time, and the slot is confirmed.
fn take_payload(words: &[u64; 34], slots: &mut [u64]) -> u64
    requires { Shaped slots.old (get_or words.now 0 0) × (get_or words.now 22 0 < get_or words.now 0 0) }
    ensures { taken result slots.new ≡ payload_taken words.now slots.old }
{
    let n = words[0] as usize;
    let i = words[22] as usize;
    records::advance_window(slots, n, i, words[25]);
    let clock = Time {
        secs: words[7],
        nanos: words[8],
    };
    records::set_received_time(slots, n, i, clock);
    let client_id = places::client_id(slots, n, i);
    records::confirm(slots, n, i);
    client_id
}

// A payload that was opened is handed out.
pub fn hear(
    words: &mut [u64; 34],
    slots: &mut [u64],
    datagram: usize,
    answer: &mut [u64; 14],
    ask: &mut [u8; 85],
)
    requires { Shaped slots.old (get_or words.old 0 0) × (get_or words.old 22 0 < get_or words.old 0 0) × (16 ≤ datagram) }
    ensures { heard (desk words.new answer.new ask.new) slots.new ≡ payload_heard (desk words.old answer.old ask.old) slots.old datagram }
{
    let start = words[26] as usize;
    let end = datagram - NETCODE_MAC_BYTES;
    let client_id = take_payload(words, slots);
    let said = Answer::Payload {
        client_id,
        start,
        end,
    };
    steps::lay_quiet(words, 0, 0, said, answer, ask);
}
