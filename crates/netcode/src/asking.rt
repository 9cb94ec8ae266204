// The queries. A reply is five words.
ghost use Rattle.std.specs.Prelude.{◌≡◌, true, false};
ghost use Rattle.queries.specs.Replies.{words_of};
ghost use Rattle.queries.specs.Queries.{connected_clients, is_connected, client_address, time_since, user_data_of, listed_into, public_into};
ghost use Rattle.netcode.specs.Laid.{record_in};
ghost use Rattle.netcode.specs.Calls.{itself, replied, replied_as};

use crate::record;

// The client limit, then the clock.
pub fn netcode_server_itself(words: &[u64; 34], out: &mut [u64; 3])
    ensures { out.new ≡ itself words.now }
{
    let server = record::read(words);
    let limit = queries::max_clients(server);
    let clock = queries::current_time(server);
    *out = [limit as u64, clock.secs, clock.nanos];
}

pub fn netcode_connected_clients(words: &[u64; 34], slots: &[u64], reply: &mut [u64; 5])
    ensures { reply.new ≡ words_of (connected_clients (record_in words.now) slots.now) }
{
    let told = queries::connected_clients(record::read(words), slots);
    *reply = told.words();
}

pub fn netcode_is_client_connected(
    words: &[u64; 34],
    slots: &[u64],
    client_id: u64,
    reply: &mut [u64; 5],
)
    ensures { reply.new ≡ words_of (is_connected (record_in words.now) slots.now client_id) }
{
    let told = queries::is_client_connected(record::read(words), slots, client_id);
    *reply = told.words();
}

pub fn netcode_client_addr(words: &[u64; 34], slots: &[u64], client_id: u64, reply: &mut [u64; 5])
    ensures { reply.new ≡ words_of (client_address (record_in words.now) slots.now client_id) }
{
    let told = queries::client_addr(record::read(words), slots, client_id);
    *reply = told.words();
}

pub fn netcode_time_since_last_received_packet(
    words: &[u64; 34],
    slots: &[u64],
    client_id: u64,
    reply: &mut [u64; 5],
)
    ensures { reply.new ≡ words_of (time_since (record_in words.now) slots.now client_id) }
{
    let told = queries::time_since_last_received_packet(record::read(words), slots, client_id);
    *reply = told.words();
}

pub fn netcode_user_data(
    words: &[u64; 34],
    slots: &[u64],
    client_id: u64,
    out: &mut [u8; 256],
    reply: &mut [u64; 5],
)
    ensures { replied reply.new out.new ≡ replied_as (user_data_of (record_in words.now) slots.now client_id out.old) }
{
    let told = queries::user_data(record::read(words), slots, client_id, out);
    *reply = told.words();
}

pub fn netcode_clients_id(words: &[u64; 34], slots: &[u64], list: &mut [u64], reply: &mut [u64; 5])
    ensures { replied reply.new list.new ≡ replied_as (listed_into (record_in words.now) slots.now true list.old) }
{
    let told = queries::clients_id(record::read(words), slots, list);
    *reply = told.words();
}

pub fn netcode_clients_slot(
    words: &[u64; 34],
    slots: &[u64],
    list: &mut [u64],
    reply: &mut [u64; 5],
)
    ensures { replied reply.new list.new ≡ replied_as (listed_into (record_in words.now) slots.now false list.old) }
{
    let told = queries::clients_slot(record::read(words), slots, list);
    *reply = told.words();
}

pub fn netcode_addresses(
    words: &[u64; 34],
    public_addresses: &[u64],
    list: &mut [u64],
    reply: &mut [u64; 5],
)
    ensures { replied reply.new list.new ≡ replied_as (public_into (record_in words.now) public_addresses.now list.old) }
{
    let told = queries::addresses(record::read(words), public_addresses, list);
    *reply = told.words();
}
