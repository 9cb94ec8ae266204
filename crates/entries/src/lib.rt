// The token entries of server.rs: which address used which connect token. They are lent bytes: k mark bytes, then k bodies of 47.
#![tactic(auto)]

ghost use Rattle.std.specs.Prelude.{◌≡◌, ◌<◌};
ghost use Rattle.refusal.specs.Verdicts.{verdict};
ghost use Rattle.serialize.specs.Runs.{splice, zeros};
ghost use Rattle.entries.specs.Layout.{Shaped, entries_refusal, count};
ghost use Rattle.entries.specs.Finds.{add_entry, done, place_for};

use addresses::Address;
use refusal::{Refusal, Why};
use times::Time;

mod body;
mod find;

pub use body::{address_at, is_used, time_at};
pub use find::{find_empty, find_match, find_oldest};

// Twice the client limit, as in the Rust.
pub const MAX_ENTRIES: usize = 2048;

// A mark and a body.
pub const ENTRY_BYTES: usize = 48;

pub const NETCODE_MAC_BYTES: usize = 16;

// A token's use: when, from where, and the last 16 of its private bytes.
#[derive(Clone, Copy)]
pub struct ConnectTokenEntry {
    pub time: Time,
    pub address: Address,
    pub mac: [u8; NETCODE_MAC_BYTES],
}

// A length is refused that is no whole number of places, none of them, or too many.
pub fn entries_refusal(entries: &[u8]) -> Result<(), Refusal>
    ensures { result ≡ verdict (entries_refusal entries.now) }
{
    let k = entries.len() / ENTRY_BYTES;
    if entries.len() % ENTRY_BYTES != 0 {
        return Err(Refusal(Why::TableUnfit));
    }
    if k == 0 {
        return Err(Refusal(Why::TableUnfit));
    }
    if k > MAX_ENTRIES {
        return Err(Refusal(Why::TableUnfit));
    }
    Ok(())
}

pub fn count_entries(entries: &[u8]) -> usize
    ensures { result ≡ count entries.now }
{
    entries.len() / ENTRY_BYTES
}

// Set-up: every place is marked empty, and nothing else is written.
pub fn empty_entries(entries: &mut [u8], k: usize)
    requires { Shaped entries.old k }
    ensures { entries.new ≡ splice entries.old 0 (zeros k) }
{
    serialize::fill(entries, 0, k, 0);
}

// Where an entry that matches none is written: the first empty place, else the first with the lowest time.
fn place_for(entries: &[u8], k: usize) -> usize
    requires { Shaped entries.now k }
    ensures { (result ≡ place_for entries.now k) × (result < k) }
{
    match find::find_empty(entries, k) {
        Some(i) => i,
        None => find::find_oldest(entries, k),
    }
}

// Whether the token may be used from this address. The last entry with its bytes decides, and nothing is written then; a token
// that has no entry gets one.
pub fn find_or_add_connect_token_entry(
    entries: &mut [u8],
    k: usize,
    new_entry: ConnectTokenEntry,
) -> bool
    requires { Shaped entries.old k }
    ensures { done result entries.new ≡ add_entry entries.old k new_entry }
{
    let mac = new_entry.mac;
    match find::find_match(entries, k, &mac) {
        Some(i) => body::address_at(entries, k, i) == new_entry.address,
        None => {
            let place = place_for(entries, k);
            body::write_entry(entries, k, place, new_entry);
            true
        }
    }
}
