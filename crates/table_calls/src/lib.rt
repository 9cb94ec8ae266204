// Times, searches and token entries as C calls, on numbers, words and bytes. Nothing is trusted: a table of another shape is 23, a
// malformed address 19, and nothing is written then.
#![tactic(auto)]

mod entries_call;
mod finds;
mod moments;

pub use entries_call::pump_find_or_add_entry;
pub use finds::{
    pump_address, pump_any_ours, pump_count_used, pump_find_by_address, pump_find_by_id,
    pump_find_free,
};
pub use moments::{
    pump_time_add, pump_time_before, pump_time_due, pump_time_past, pump_time_since,
};
