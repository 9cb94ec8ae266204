// A connection's record in its place of a table: its fields read and written where they lie, and whole records put in, taken out and
// moved from one table to another.
#![tactic(auto)]

use addresses::Address;
use replay_protection::ReplayProtection;
use times::Time;

mod fields;
mod whole;

pub use fields::{
    advance_window, confirm, expire_timestamp, is_confirmed, load_window, receive_key,
    received_time, send_key, sent_time, sequence, set_received_time, set_sent_time, set_sequence,
    set_user_data, store_window, timeout_seconds, user_data, window_refusal,
};
pub use whole::{empty, empty_all, fill, move_record};

// The Rust's `Connection`, less its state: a record in `slots` is connected, one in `pending` waits for its response. A timeout is
// the 32 bits of the token's i32.
#[derive(Clone, Copy)]
pub struct Connection {
    pub confirmed: bool,
    pub client_id: u64,
    pub send_key: [u8; 32],
    pub receive_key: [u8; 32],
    pub user_data: [u8; 256],
    pub addr: Address,
    pub last_packet_received_time: Time,
    pub last_packet_send_time: Time,
    pub timeout_seconds: u32,
    pub sequence: u64,
    pub expire_timestamp: u64,
    pub replay_protection: ReplayProtection,
}
