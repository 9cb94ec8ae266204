// A datagram, and the host's answers to what it was asked.
ghost use Rattle.std.specs.Prelude.{◌≡◌, length};
ghost use Rattle.addresses.specs.Addresses.{of_bytes};
ghost use Rattle.turns.specs.Outcomes.{state};
ghost use Rattle.arrivals.specs.Arrivals.{arrives};
ghost use Rattle.opens.specs.Opens.{opens};
ghost use Rattle.grants.specs.Grants.{grants};
ghost use Rattle.seals.specs.Seals.{seals};
ghost use Rattle.netcode.specs.Laid.{record_in};
ghost use Rattle.netcode.specs.Told.{desk};
ghost use Rattle.netcode.specs.Calls.{yes?, token_of, moved, moved_as, wrote, wrote_as, booked, booked_as};

use crate::{hearing, record, speaking, told};
use addresses::Address;
use grants::PrivateConnectToken;

// Any datagram.
fn process_any(
    words: &mut [u64; 34],
    addr: Address,
    slots: &mut [u64],
    pending: &mut [u64],
    out: &[u8],
    datagram: &[u8],
    answer: &mut [u64; 14],
    ask: &mut [u8; 85],
)
    ensures { moved (desk words.new answer.new ask.new) slots.new pending.new ≡ moved_as (desk words.old answer.old ask.old) (arrives (state (record_in words.old) slots.old pending.old) addr (length out.now) datagram.now) }
{
    let turn = arrivals::process_packet(record::read(words), addr, slots, pending, out, datagram);
    told::lay_turn(turn, words, answer, ask);
}

// A sealed packet of a slot goes the short way.
pub fn netcode_process_packet(
    words: &mut [u64; 34],
    kind: u8,
    port: u16,
    ip: &[u8; 16],
    slots: &mut [u64],
    pending: &mut [u64],
    out: &[u8],
    datagram: &[u8],
    answer: &mut [u64; 14],
    ask: &mut [u8; 85],
)
    ensures { moved (desk words.new answer.new ask.new) slots.new pending.new ≡ moved_as (desk words.old answer.old ask.old) (arrives (state (record_in words.old) slots.old pending.old) (of_bytes kind ip.now port) (length out.now) datagram.now) }
{
    let addr = Address::new(kind, ip, port);
    let room = out.len();
    match hearing::look(words, addr, slots, pending, room, datagram) {
        Some(seen) => hearing::ask_open(words, slots, seen, room, datagram, answer, ask),
        None => process_any(words, addr, slots, pending, out, datagram, answer, ask),
    }
}

// Any answer.
fn answer_any(
    words: &mut [u64; 34],
    granted: u8,
    slots: &mut [u64],
    pending: &mut [u64],
    held: &mut [u8; 340],
    out: &mut [u8],
    datagram: &[u8],
    answer: &mut [u64; 14],
    ask: &mut [u8; 85],
)
    ensures { wrote (moved (desk words.new answer.new ask.new) slots.new pending.new) held.new out.new ≡ wrote_as (desk words.old answer.old ask.old) (opens (state (record_in words.old) slots.old pending.old) (yes? granted) held.old out.old datagram.now) }
{
    let turn = opens::answer_open(
        record::read(words),
        granted != 0,
        slots,
        pending,
        held,
        out,
        datagram,
    );
    told::lay_turn(turn, words, answer, ask);
}

// A payload of a slot goes the short way.
pub fn netcode_answer_open(
    words: &mut [u64; 34],
    granted: u8,
    slots: &mut [u64],
    pending: &mut [u64],
    held: &mut [u8; 340],
    out: &mut [u8],
    datagram: &[u8],
    answer: &mut [u64; 14],
    ask: &mut [u8; 85],
)
    ensures { wrote (moved (desk words.new answer.new ask.new) slots.new pending.new) held.new out.new ≡ wrote_as (desk words.old answer.old ask.old) (opens (state (record_in words.old) slots.old pending.old) (yes? granted) held.old out.old datagram.now) }
{
    let len = datagram.len();
    if hearing::is_payload(words, granted, slots, pending, len, out.len()) {
        hearing::hear(words, slots, len, answer, ask);
        return;
    }
    answer_any(
        words, granted, slots, pending, held, out, datagram, answer, ask,
    );
}

pub fn netcode_answer_token(
    words: &mut [u64; 34],
    granted: u8,
    client_id: u64,
    timeout_seconds: u32,
    server_to_client_key: &[u8; 32],
    client_to_server_key: &[u8; 32],
    user_data: &[u8; 256],
    server_addresses: &[u64],
    slots: &[u64],
    pending: &mut [u64],
    entries: &mut [u8],
    public_addresses: &[u64],
    held: &mut [u8; 340],
    out: &mut [u8],
    datagram: &[u8],
    answer: &mut [u64; 14],
    ask: &mut [u8; 85],
)
    ensures { booked (wrote (moved (desk words.new answer.new ask.new) slots.now pending.new) held.new out.new) entries.new ≡ booked_as (desk words.old answer.old ask.old) (grants (state (record_in words.old) slots.now pending.old) (yes? granted) (token_of client_id timeout_seconds server_to_client_key.now client_to_server_key.now user_data.now) server_addresses.now entries.old public_addresses.now held.old out.old (length datagram.now)) }
{
    let token = PrivateConnectToken {
        client_id,
        timeout_seconds,
        server_to_client_key: *server_to_client_key,
        client_to_server_key: *client_to_server_key,
        user_data: *user_data,
    };
    let turn = grants::answer_token(
        record::read(words),
        granted != 0,
        token,
        server_addresses,
        slots,
        pending,
        entries,
        public_addresses,
        held,
        out,
        datagram,
    );
    told::lay_turn(turn, words, answer, ask);
}

// By the whole record.
fn answer_seal(
    words: &mut [u64; 34],
    granted: u8,
    slots: &mut [u64],
    pending: &mut [u64],
    held: &[u8; 340],
    out: &[u8],
    answer: &mut [u64; 14],
    ask: &mut [u8; 85],
)
    ensures { moved (desk words.new answer.new ask.new) slots.new pending.new ≡ moved_as (desk words.old answer.old ask.old) (seals (state (record_in words.old) slots.old pending.old) (yes? granted) held.now (length out.now)) }
{
    let turn = seals::answer_seal(record::read(words), granted != 0, slots, pending, held, out);
    told::lay_turn(turn, words, answer, ask);
}

pub fn netcode_answer_seal(
    words: &mut [u64; 34],
    granted: u8,
    slots: &mut [u64],
    pending: &mut [u64],
    held: &[u8; 340],
    out: &[u8],
    answer: &mut [u64; 14],
    ask: &mut [u8; 85],
)
    ensures { moved (desk words.new answer.new ask.new) slots.new pending.new ≡ moved_as (desk words.old answer.old ask.old) (seals (state (record_in words.old) slots.old pending.old) (yes? granted) held.now (length out.now)) }
{
    if speaking::is_sent(words, granted, slots, pending, out.len()) {
        speaking::note_sent(words, slots, answer, ask);
        return;
    }
    answer_seal(words, granted, slots, pending, held, out, answer, ask)
}
