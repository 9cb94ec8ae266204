// Whole records: a place filled, emptied, or given another table's record. The mark is written last.
ghost use Rattle.std.specs.Prelude.{◌≡◌, ◌+◌, ◌<◌, ◌≤◌, [], ◌∷◌, ◌++◌, length};
ghost use Rattle.serialize.specs.Runs.{splice, zeros};
ghost use Rattle.serialize.specs.Le.{words};
ghost use Rattle.addresses.specs.Addresses.{words_of};
ghost use Rattle.places.specs.Layout.{Shaped, body_words};
ghost use Rattle.records.specs.Records.{bit, body_of, filled, emptied, moved};

use crate::{Connection, fields};
use addresses::Address;
use places::BODY_WORDS;
use times::Time;

fn put_address(t: &mut [u64], at: usize, addr: Address)
    requires { at + 3 ≤ length t.old }
    ensures { t.new ≡ splice t.old at (words_of addr) }
{
    t[at] = addr.first_word();
    t[at + 1] = addr.low;
    t[at + 2] = addr.high;
}

// Confirmed and the keys, nine words in a row.
fn put_keys(t: &mut [u64], at: usize, confirmed: bool, send_key: [u8; 32], receive_key: [u8; 32])
    requires { at + 9 ≤ length t.old }
    ensures { t.new ≡ splice t.old at ((bit confirmed ∷ []) ++ words 4 send_key ++ words 4 receive_key) }
{
    t[at] = u64::from(confirmed);
    serialize::pack_words(t, at + 1, &send_key, 0, 4);
    serialize::pack_words(t, at + 5, &receive_key, 0, 4);
}

// Two times and three numbers, seven words in a row.
fn put_numbers(
    t: &mut [u64],
    at: usize,
    received: Time,
    sent: Time,
    timeout: u32,
    sequence: u64,
    expiry: u64,
)
    requires { at + 7 ≤ length t.old }
    ensures { t.new ≡ splice t.old at (received.secs ∷ received.nanos ∷ sent.secs ∷ sent.nanos ∷ timeout ∷ sequence ∷ expiry ∷ []) }
{
    fields::put_time(t, at, received);
    fields::put_time(t, at + 2, sent);
    t[at + 4] = timeout as u64;
    t[at + 5] = sequence;
    t[at + 6] = expiry;
}

fn put_body(t: &mut [u64], at: usize, connection: Connection)
    requires { at + body_words ≤ length t.old }
    ensures { t.new ≡ splice t.old at (body_of connection) }
{
    put_keys(
        t,
        at,
        connection.confirmed,
        connection.send_key,
        connection.receive_key,
    );
    put_numbers(
        t,
        at + 9,
        connection.last_packet_received_time,
        connection.last_packet_send_time,
        connection.timeout_seconds,
        connection.sequence,
        connection.expire_timestamp,
    );
    serialize::pack_words(t, at + 16, &connection.user_data, 0, 32);
    replay_protection::store_window(t, at + 48, connection.replay_protection);
}

// Place i takes the record.
pub fn fill(t: &mut [u64], n: usize, i: usize, connection: Connection)
    requires { Shaped t.old n × (i < n) }
    ensures { t.new ≡ filled t.old n i connection }
{
    t[n + i] = connection.client_id;
    put_address(t, 2 * n + 3 * i, connection.addr);
    put_body(t, 5 * n + BODY_WORDS * i, connection);
    t[i] = 1;
}

// The mark alone.
pub fn empty(t: &mut [u64], n: usize, i: usize)
    requires { Shaped t.old n × (i < n) }
    ensures { t.new ≡ emptied t.old i }
{
    t[i] = 0;
}

// Set-up: every place is marked empty, and nothing else is written.
pub fn empty_all(t: &mut [u64], n: usize)
    requires { Shaped t.old n }
    ensures { t.new ≡ splice t.old 0 (zeros n) }
{
    serialize::fill(t, 0, n, 0);
}

// Place i of the slots takes the record at place j of the pending ones, its window with it; that place is emptied.
pub fn move_record(slots: &mut [u64], n: usize, i: usize, pending: &mut [u64], m: usize, j: usize)
    requires { Shaped slots.old n × (i < n) × Shaped pending.old m × (j < m) }
    ensures { (slots.new ≡ moved slots.old n i pending.old m j) × (pending.new ≡ emptied pending.old j) }
{
    slots[n + i] = pending[m + j];
    serialize::copy(slots, 2 * n + 3 * i, pending, 2 * m + 3 * j, 3);
    serialize::copy(
        slots,
        5 * n + BODY_WORDS * i,
        pending,
        5 * m + BODY_WORDS * j,
        BODY_WORDS,
    );
    slots[i] = 1;
    pending[j] = 0;
}
