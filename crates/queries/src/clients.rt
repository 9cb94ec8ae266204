// Queries about the connected: by count, or by an id, of which the lowest slot counts.
ghost use Rattle.std.specs.Prelude.{◌≡◌};
ghost use Rattle.queries.specs.Queries.{connected_clients, is_connected, client_address, time_since, user_data_of, told};

use crate::Reply;
use server::NetcodeServer;

// How many slots are used.
pub fn connected_clients(server: NetcodeServer, slots: &[u64]) -> Reply
    ensures { result ≡ connected_clients server slots.now }
{
    let set = server.set;
    if let Err(refusal) = server::slots_refusal(set, slots.len()) {
        return Reply::Refused(refusal);
    }
    let count = places::count_used(slots, set.slots);
    Reply::Count(count)
}

pub fn is_client_connected(server: NetcodeServer, slots: &[u64], client_id: u64) -> Reply
    ensures { result ≡ is_connected server slots.now client_id }
{
    let set = server.set;
    if let Err(refusal) = server::slots_refusal(set, slots.len()) {
        return Reply::Refused(refusal);
    }
    match places::find_by_id(slots, set.slots, client_id) {
        Some(_) => Reply::Connected,
        None => Reply::Nothing,
    }
}

pub fn client_addr(server: NetcodeServer, slots: &[u64], client_id: u64) -> Reply
    ensures { result ≡ client_address server slots.now client_id }
{
    let set = server.set;
    if let Err(refusal) = server::slots_refusal(set, slots.len()) {
        return Reply::Refused(refusal);
    }
    match places::find_by_id(slots, set.slots, client_id) {
        Some(i) => Reply::Addr(places::address(slots, set.slots, i)),
        None => Reply::Nothing,
    }
}

// How long ago the last packet came; zero for a stored time later than now.
pub fn time_since_last_received_packet(
    server: NetcodeServer,
    slots: &[u64],
    client_id: u64,
) -> Reply
    ensures { result ≡ time_since server slots.now client_id }
{
    let set = server.set;
    if let Err(refusal) = server::slots_refusal(set, slots.len()) {
        return Reply::Refused(refusal);
    }
    match places::find_by_id(slots, set.slots, client_id) {
        Some(i) => {
            let current_time = server.current_time;
            Reply::Since(current_time.since(records::received_time(slots, set.slots, i)))
        }
        None => Reply::Nothing,
    }
}

// The user data goes into out; where there is none out is as it was.
pub fn user_data(server: NetcodeServer, slots: &[u64], client_id: u64, out: &mut [u8; 256]) -> Reply
    ensures { told result out.new ≡ user_data_of server slots.now client_id out.old }
{
    let set = server.set;
    if let Err(refusal) = server::slots_refusal(set, slots.len()) {
        return Reply::Refused(refusal);
    }
    match places::find_by_id(slots, set.slots, client_id) {
        Some(i) => {
            *out = records::user_data(slots, set.slots, i);
            Reply::UserData
        }
        None => Reply::Nothing,
    }
}
