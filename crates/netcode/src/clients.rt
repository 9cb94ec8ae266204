// What the host wants of a client: a payload sent, its turn at a step of the clock, its end.
ghost use Rattle.std.specs.Prelude.{◌≡◌};
ghost use Rattle.sending.specs.Packets.{generated};
ghost use Rattle.sending.specs.Clients.{client_updated, disconnected};
ghost use Rattle.netcode.specs.Laid.{record_in};
ghost use Rattle.netcode.specs.Told.{desk};
ghost use Rattle.netcode.specs.Calls.{spoke, spoke_as, attended, attended_as};

use crate::{record, speaking, told};

// By the whole record.
fn generate_payload_packet(
    words: &mut [u64; 34],
    client_id: u64,
    payload: &[u8],
    slots: &[u64],
    out: &mut [u8],
    answer: &mut [u64; 14],
    ask: &mut [u8; 85],
)
    ensures { spoke (desk words.new answer.new ask.new) out.new ≡ spoke_as (desk words.old answer.old ask.old) (generated (record_in words.old) slots.now client_id payload.now out.old) }
{
    let turn = sending::generate_payload_packet(
        record::read(words),
        client_id,
        payload,
        slots,
        out,
    );
    told::lay_turn(turn, words, answer, ask);
}

pub fn netcode_generate_payload_packet(
    words: &mut [u64; 34],
    client_id: u64,
    payload: &[u8],
    slots: &[u64],
    out: &mut [u8],
    answer: &mut [u64; 14],
    ask: &mut [u8; 85],
)
    ensures { spoke (desk words.new answer.new ask.new) out.new ≡ spoke_as (desk words.old answer.old ask.old) (generated (record_in words.old) slots.now client_id payload.now out.old) }
{
    match speaking::can_send(words, client_id, payload.len(), slots, out.len()) {
        Some(i) => speaking::send_payload(words, slots, i, payload, out, answer, ask),
        None => { generate_payload_packet(words, client_id, payload, slots, out, answer, ask) }
    }
}

// By the whole record.
fn update_client(
    words: &mut [u64; 34],
    client_id: u64,
    slots: &mut [u64],
    out: &mut [u8],
    answer: &mut [u64; 14],
    ask: &mut [u8; 85],
)
    ensures { attended (desk words.new answer.new ask.new) slots.new out.new ≡ attended_as (desk words.old answer.old ask.old) (client_updated (record_in words.old) slots.old client_id out.old) }
{
    let turn = sending::update_client(record::read(words), client_id, slots, out);
    told::lay_turn(turn, words, answer, ask);
}

pub fn netcode_update_client(
    words: &mut [u64; 34],
    client_id: u64,
    slots: &mut [u64],
    out: &mut [u8],
    answer: &mut [u64; 14],
    ask: &mut [u8; 85],
)
    ensures { attended (desk words.new answer.new ask.new) slots.new out.new ≡ attended_as (desk words.old answer.old ask.old) (client_updated (record_in words.old) slots.old client_id out.old) }
{
    if speaking::is_quiet(words, client_id, slots) {
        speaking::rest(words, answer, ask);
        return;
    }
    update_client(words, client_id, slots, out, answer, ask)
}

pub fn netcode_disconnect(
    words: &mut [u64; 34],
    client_id: u64,
    slots: &mut [u64],
    out: &mut [u8],
    answer: &mut [u64; 14],
    ask: &mut [u8; 85],
)
    ensures { attended (desk words.new answer.new ask.new) slots.new out.new ≡ attended_as (desk words.old answer.old ask.old) (disconnected (record_in words.old) slots.old client_id out.old) }
{
    let turn = sending::disconnect(record::read(words), client_id, slots, out);
    told::lay_turn(turn, words, answer, ask);
}
