// The tables of connections, `slots` and `pending`, lent as words of one layout: for n places n marks, n ids, n addresses of three
// words, then n bodies, so that every search walks a few kilobytes. Here is what is in the columns; the bodies are `records`.
#![tactic(auto)]

ghost use Rattle.std.specs.Prelude.{◌≡◌, ◌<◌};
ghost use Rattle.refusal.specs.Verdicts.{verdict};
ghost use Rattle.places.specs.Layout.{Shaped, count, places_refusal, used_at, id_of, address_of};

use addresses::Address;
use refusal::{Refusal, Why};
use replay_protection::NETCODE_REPLAY_BUFFER_SIZE;

mod find;

pub use find::{count_used, find_by_address, find_by_id, find_free};

pub const NETCODE_MAX_CLIENTS: usize = 1024;

pub const NETCODE_MAX_PENDING_CLIENTS: usize = 4096;

// A body: 48 words and the window.
pub const BODY_WORDS: usize = 49 + NETCODE_REPLAY_BUFFER_SIZE;

// A place: mark, id, address and body.
pub const PLACE_WORDS: usize = 5 + BODY_WORDS;

pub fn count_places(t: &[u64]) -> usize
    ensures { result ≡ count t.now }
{
    t.len() / PLACE_WORDS
}

// A length is refused that is no whole number of places, none of them, or more than most.
pub fn places_refusal(t: &[u64], most: usize) -> Result<(), Refusal>
    ensures { result ≡ verdict (places_refusal t.now most) }
{
    let n = t.len() / PLACE_WORDS;
    if t.len() % PLACE_WORDS != 0 {
        return Err(Refusal(Why::TableUnfit));
    }
    if n == 0 {
        return Err(Refusal(Why::TableUnfit));
    }
    if n > most {
        return Err(Refusal(Why::TableUnfit));
    }
    Ok(())
}

// A mark of 0 is empty, any other used.
pub fn is_used(t: &[u64], n: usize, i: usize) -> bool
    requires { Shaped t.now n × (i < n) }
    ensures { result ≡ used_at t.now i }
{
    t[i] != 0
}

pub fn client_id(t: &[u64], n: usize, i: usize) -> u64
    requires { Shaped t.now n × (i < n) }
    ensures { result ≡ id_of t.now n i }
{
    t[n + i]
}

pub fn address(t: &[u64], n: usize, i: usize) -> Address
    requires { Shaped t.now n × (i < n) }
    ensures { result ≡ address_of t.now n i }
{
    let at = 2 * n + 3 * i;
    Address::from_words(t[at], t[at + 1], t[at + 2])
}
