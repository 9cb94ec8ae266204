// The queries. A reply is five words.
ghost use Rattle.std.specs.Prelude.{◌≡◌, true, false};
ghost use Rattle.queries.specs.Replies.{words_of};
ghost use Rattle.queries.specs.Queries.{connected_clients, is_connected, client_address, time_since, user_data_of, listed_into, public_into};
ghost use Rattle.netcode.specs.Laid.{record_in};
ghost use Rattle.netcode.specs.Calls.{itself, replied, replied_as};

// The client limit, then the clock.
#[unsafe(no_mangle)]
pub extern "C" fn netcode_server_itself(words: &[u64; 34], out: &mut [u64; 3])
    ensures { out.new ≡ itself words.now }
{
    netcode::netcode_server_itself(words, out)
}

#[unsafe(no_mangle)]
pub extern "C" fn netcode_connected_clients(words: &[u64; 34], slots: &[u64], reply: &mut [u64; 5])
    ensures { reply.new ≡ words_of (connected_clients (record_in words.now) slots.now) }
{
    netcode::netcode_connected_clients(words, slots, reply)
}

#[unsafe(no_mangle)]
pub extern "C" fn netcode_is_client_connected(
    words: &[u64; 34],
    slots: &[u64],
    client_id: u64,
    reply: &mut [u64; 5],
)
    ensures { reply.new ≡ words_of (is_connected (record_in words.now) slots.now client_id) }
{
    netcode::netcode_is_client_connected(words, slots, client_id, reply)
}

#[unsafe(no_mangle)]
pub extern "C" fn netcode_client_addr(
    words: &[u64; 34],
    slots: &[u64],
    client_id: u64,
    reply: &mut [u64; 5],
)
    ensures { reply.new ≡ words_of (client_address (record_in words.now) slots.now client_id) }
{
    netcode::netcode_client_addr(words, slots, client_id, reply)
}

#[unsafe(no_mangle)]
pub extern "C" fn netcode_time_since_last_received_packet(
    words: &[u64; 34],
    slots: &[u64],
    client_id: u64,
    reply: &mut [u64; 5],
)
    ensures { reply.new ≡ words_of (time_since (record_in words.now) slots.now client_id) }
{
    netcode::netcode_time_since_last_received_packet(words, slots, client_id, reply)
}

#[unsafe(no_mangle)]
pub extern "C" fn netcode_user_data(
    words: &[u64; 34],
    slots: &[u64],
    client_id: u64,
    out: &mut [u8; 256],
    reply: &mut [u64; 5],
)
    ensures { replied reply.new out.new ≡ replied_as (user_data_of (record_in words.now) slots.now client_id out.old) }
{
    netcode::netcode_user_data(words, slots, client_id, out, reply)
}

#[unsafe(no_mangle)]
pub extern "C" fn netcode_clients_id(
    words: &[u64; 34],
    slots: &[u64],
    list: &mut [u64],
    reply: &mut [u64; 5],
)
    ensures { replied reply.new list.new ≡ replied_as (listed_into (record_in words.now) slots.now true list.old) }
{
    netcode::netcode_clients_id(words, slots, list, reply)
}

#[unsafe(no_mangle)]
pub extern "C" fn netcode_clients_slot(
    words: &[u64; 34],
    slots: &[u64],
    list: &mut [u64],
    reply: &mut [u64; 5],
)
    ensures { replied reply.new list.new ≡ replied_as (listed_into (record_in words.now) slots.now false list.old) }
{
    netcode::netcode_clients_slot(words, slots, list, reply)
}

#[unsafe(no_mangle)]
pub extern "C" fn netcode_addresses(
    words: &[u64; 34],
    public_addresses: &[u64],
    list: &mut [u64],
    reply: &mut [u64; 5],
)
    ensures { replied reply.new list.new ≡ replied_as (public_into (record_in words.now) public_addresses.now list.old) }
{
    netcode::netcode_addresses(words, public_addresses, list, reply)
}
