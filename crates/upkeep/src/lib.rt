// Set-up, the clock and the limit: what the server does that takes no datagram and no cipher.
#![tactic(auto)]

use times::Time;

mod clock;
mod limit;
mod setup;

pub use clock::update;
pub use limit::set_max_clients;
pub use setup::set_up;

// The Rust's `ServerConfig`. The challenge key is the caller's; where the server is not secure the connect key is zeros, whatever
// stands here.
#[derive(Clone, Copy)]
pub struct ServerConfig {
    pub current_time: Time,
    pub max_clients: usize,
    pub protocol_id: u64,
    pub secure: bool,
    pub connect_key: [u8; 32],
    pub challenge_key: [u8; 32],
}
