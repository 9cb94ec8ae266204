// All queries about an id, told as the sample tells them.
use crate::say::Said;
use crate::world::World;
use crate::{text, world};

// Cases of a reply.
const NOTHING: u64 = 1;

const CONNECTED: u64 = 2;

const COUNT: u64 = 3;

const ADDRESS: u64 = 4;

const SINCE: u64 = 5;

const USER_DATA: u64 = 6;

fn itself(said: &mut Said, server: &[u64; 34]) {
    let mut words = [0u64; 3];
    netcode::netcode_server_itself(server, &mut words);
    said.numbers(&words);
}

fn connected_clients(said: &mut Said, server: &[u64; 34], slots: &[u64]) {
    let mut reply = [0u64; 5];
    netcode::netcode_connected_clients(server, slots, &mut reply);
    match reply[0] {
        COUNT => said.number(reply[2]),
        _ => said.refused(reply[1]),
    }
}

fn is_client_connected(said: &mut Said, server: &[u64; 34], slots: &[u64], id: u64) {
    let mut reply = [0u64; 5];
    netcode::netcode_is_client_connected(server, slots, id, &mut reply);
    match reply[0] {
        NOTHING => said.number(0),
        CONNECTED => said.number(1),
        _ => said.refused(reply[1]),
    }
}

fn client_addr(said: &mut Said, server: &[u64; 34], slots: &[u64], id: u64) {
    let mut reply = [0u64; 5];
    netcode::netcode_client_addr(server, slots, id, &mut reply);
    match reply[0] {
        NOTHING => said.numbers(&[0; 3]),
        ADDRESS => said.numbers(&reply[2..]),
        _ => said.refused(reply[1]),
    }
}

fn time_since_last_received_packet(said: &mut Said, server: &[u64; 34], slots: &[u64], id: u64) {
    let mut reply = [0u64; 5];
    netcode::netcode_time_since_last_received_packet(server, slots, id, &mut reply);
    match reply[0] {
        NOTHING => said.numbers(&[0; 2]),
        SINCE => said.numbers(&reply[2..4]),
        _ => said.refused(reply[1]),
    }
}

fn user_data(said: &mut Said, server: &[u64; 34], slots: &[u64], id: u64) {
    let mut reply = [0u64; 5];
    let mut user = [0u8; 256];
    netcode::netcode_user_data(server, slots, id, &mut user, &mut reply);
    match reply[0] {
        NOTHING => said.none(),
        USER_DATA => said.bytes(&user),
        _ => said.refused(reply[1]),
    }
}

fn listed(said: &mut Said, list: &[u64; 8], reply: &[u64; 5]) {
    match reply[0] {
        COUNT => said.list(list, reply[2] as usize),
        _ => said.refused(reply[1]),
    }
}

fn clients_id(said: &mut Said, server: &[u64; 34], slots: &[u64], room: usize) {
    let mut reply = [0u64; 5];
    let mut list = [0u64; 8];
    netcode::netcode_clients_id(server, slots, world::first_mut(&mut list, room), &mut reply);
    listed(said, &list, &reply);
}

fn clients_slot(said: &mut Said, server: &[u64; 34], slots: &[u64], room: usize) {
    let mut reply = [0u64; 5];
    let mut list = [0u64; 8];
    netcode::netcode_clients_slot(server, slots, world::first_mut(&mut list, room), &mut reply);
    listed(said, &list, &reply);
}

// Of the server; of the client, whether connected, its address, how long ago it was heard, its user data; and lists that have the room that
// is lent.
pub(crate) fn tell(left: &[u8], said: &mut Said, world: &World) {
    let server = &world.server;
    let slots = world::first(&world.slots, world.lent.slots);
    let id = text::number(left, 1);
    itself(said, server);
    connected_clients(said, server, slots);
    is_client_connected(said, server, slots, id);
    client_addr(said, server, slots, id);
    time_since_last_received_packet(said, server, slots, id);
    user_data(said, server, slots, id);
    clients_id(said, server, slots, world.lent.list);
    clients_slot(said, server, slots, world.lent.list);
}
