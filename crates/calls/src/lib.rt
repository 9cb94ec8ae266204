// The packets' parts as C calls, on numbers and bytes alone, for a program in another language that runs them beside the Rust. Each
// call takes any input. What a call answers stands on the *desk*, sixteen words that the caller lends: see `desk`.
#![tactic(auto)]

mod desk;
mod heads;
mod packets;
mod tokens;
mod windows;

pub use heads::{
    pump_decode_prefix, pump_encode_prefix, pump_get_additional_data,
    pump_get_token_additional_data, pump_read_sequence, pump_sequence_bytes_required,
    pump_write_sequence,
};
pub use packets::{pump_answer_open, pump_answer_seal, pump_decode, pump_encode, pump_field};
pub use tokens::{pump_answer_challenge, pump_decode_challenge, pump_generate_challenge};
pub use windows::{
    pump_advance_at, pump_advance_sequence, pump_already_received, pump_new_window, pump_refusal,
    pump_refusal_at,
};
