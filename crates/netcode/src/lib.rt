// The C interface: every entry point of the server on numbers, words and bytes that the host lends, for `include/netcode.h`. Nothing is
// trusted: any record, any tables and any lengths get an answer.
#![tactic(auto)]

use bodies::PacketType;

mod asking;
mod clients;
mod datagrams;
mod hearing;
mod record;
mod sizes;
mod speaking;
mod stages;
mod standing;
mod steps;
mod told;

pub use asking::{
    netcode_addresses, netcode_client_addr, netcode_clients_id, netcode_clients_slot,
    netcode_connected_clients, netcode_is_client_connected, netcode_server_itself,
    netcode_time_since_last_received_packet, netcode_user_data,
};
pub use clients::{netcode_disconnect, netcode_generate_payload_packet, netcode_update_client};
pub use datagrams::{
    netcode_answer_open, netcode_answer_seal, netcode_answer_token, netcode_process_packet,
};
pub use sizes::{
    netcode_addresses_words, netcode_entries_bytes, netcode_pending_words, netcode_slots_words,
};
pub use standing::{netcode_set_max_clients, netcode_set_up, netcode_update};

// A packet of a slot that is to be opened, as a look at its datagram shows it.
#[derive(Clone, Copy)]
pub struct Sealed {
    pub place: usize,
    pub kind: PacketType,
    pub sequence: u64,
    pub start: usize,
}
