// The queries: what a host may ask the server at any time, also while an ask is open. They change nothing but the list that they
// fill; a table whose length is not set-up's is 23, a list that is too short 14.
#![tactic(auto)]

use addresses::Address;
use refusal::Refusal;
use times::Time;

mod clients;
mod lists;
mod replies;
mod server_itself;

pub use clients::{
    client_addr, connected_clients, is_client_connected, time_since_last_received_packet, user_data,
};
pub use lists::{addresses, clients_id, clients_slot};
pub use server_itself::{current_time, max_clients};

// What a query comes to, an enum of its own, as document 01 wants an answer. An id that is not connected is `Nothing`.
#[derive(Clone, Copy)]
pub enum Reply {
    Refused(Refusal),
    Nothing,
    Connected,
    Count(usize),
    Addr(Address),
    Since(Time),
    UserData,
}
