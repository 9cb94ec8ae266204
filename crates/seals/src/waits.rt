// The pending record that a challenge leaves, and the slot that a first keep-alive leaves.
ghost use Rattle.std.specs.Prelude.{◌≡◌, ◌+◌, ◌<◌};
ghost use Rattle.places.specs.Layout.{Shaped};
ghost use Rattle.places.specs.Finds.{find_free};
ghost use Rattle.records.specs.Records.{emptied};
ghost use Rattle.seals.specs.Waits.{newcomer, by_place, waits, sent_under, connected};

use addresses::Address;
use records::Connection;
use replay_protection::ReplayProtection;
use server::HELD_BYTES;
use times::Time;

// A new record: what is held of the token, no packet received or sent, a fresh window.
fn newcomer(held: &[u8; HELD_BYTES], addr: Address, time: Time) -> Connection
    ensures { result ≡ newcomer held.now addr time }
{
    Connection {
        confirmed: false,
        client_id: server::held_client_id(held),
        send_key: server::held_send_key(held),
        receive_key: server::held_receive_key(held),
        user_data: server::held_user_data(held),
        addr,
        last_packet_received_time: time,
        last_packet_send_time: time,
        timeout_seconds: server::held_timeout(held),
        sequence: 0,
        expire_timestamp: server::held_expiry(held),
        replay_protection: ReplayProtection::new(),
    }
}

// The lowest free place takes it.
fn take_place(pending: &mut [u64], m: usize, held: &[u8; HELD_BYTES], addr: Address, time: Time)
    requires { Shaped pending.old m }
    ensures { pending.new ≡ by_place pending.old m held.now addr time (find_free pending.old m) }
{
    match places::find_free(pending, m) {
        Some(j) => {
            let connection = newcomer(held, addr, time);
            records::fill(pending, m, j, connection);
        }
        None => {}
    }
}

// The place that the address has already keeps all but its two times.
pub fn wait(pending: &mut [u64], m: usize, held: &[u8; HELD_BYTES], addr: Address, time: Time)
    requires { Shaped pending.old m }
    ensures { pending.new ≡ waits pending.old m held.now addr time }
{
    match places::find_by_address(pending, m, addr) {
        Some(j) => {
            records::set_received_time(pending, m, j, time);
            records::set_sent_time(pending, m, j, time);
        }
        None => take_place(pending, m, held, addr, time),
    }
}

// A packet was sent under the sequence.
pub fn sent_under(table: &mut [u64], n: usize, i: usize, sequence: u64, time: Time)
    requires { Shaped table.old n × (i < n) × (sequence + 1 < 18446744073709551616) }
    ensures { table.new ≡ sent_under table.old n i sequence time }
{
    records::set_sequence(table, n, i, sequence + 1);
    records::set_sent_time(table, n, i, time);
}

// Slot i takes the record of pending place j, with the challenge's user data; its first packet was sent.
pub fn connect(
    slots: &mut [u64],
    n: usize,
    i: usize,
    pending: &mut [u64],
    m: usize,
    j: usize,
    held: &[u8; HELD_BYTES],
    sequence: u64,
    time: Time,
)
    requires { Shaped slots.old n × (i < n) × Shaped pending.old m × (j < m) × (sequence + 1 < 18446744073709551616) }
    ensures { (slots.new ≡ connected slots.old n i pending.old m j held.now sequence time) × (pending.new ≡ emptied pending.old j) }
{
    records::move_record(slots, n, i, pending, m, j);
    let user_data = server::held_user_data(held);
    records::set_user_data(slots, n, i, &user_data);
    sent_under(slots, n, i, sequence, time);
}
