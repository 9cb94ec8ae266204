// Lists of addresses, lent as words, three to an address: the server's public ones, and a token's. Words past the last whole
// address are not looked at.
ghost use Rattle.std.specs.Prelude.{◌≡◌, ◌<◌, ℕ, Bool};
ghost use Rattle.serialize.specs.Search.{first_from};
ghost use Rattle.refusal.specs.Verdicts.{verdict};
ghost use Rattle.addresses.specs.Addresses.{count, address_at, malformed_at, find_malformed, list_refusal, find_words, is_ours, find_ours, any_ours};

use crate::{ADDRESS_WORDS, Address};
use refusal::{Refusal, Why};

pub fn count_addresses(list: &[u64]) -> usize
    ensures { result ≡ count list.now }
{
    list.len() / ADDRESS_WORDS
}

pub fn address_at(list: &[u64], i: usize) -> Address
    requires { i < count list.now }
    ensures { result ≡ address_at list.now i }
{
    let at = ADDRESS_WORDS * i;
    Address::from_words(list[at], list[at + 1], list[at + 2])
}

// The first of n places at which the test holds.
fn find_first<F: Fn(usize) -> bool>(n: usize, holds: F) -> Option<usize>
    requires { (i : ℕ) → i < n → F.pre holds i }
    ensures { (p : ℕ → Bool) → ((i : ℕ) → i < n → (r : Bool) → F.post holds i r → r ≡ p i) → result ≡ first_from p 0 n }
{
    let mut i: usize = 0;
    loop {
        if i >= n {
            break None;
        }
        if holds(i) {
            break Some(i);
        }
        i += 1;
    }
}

fn is_malformed(list: &[u64], i: usize) -> bool
    requires { i < count list.now }
    ensures { result ≡ malformed_at list.now i }
{
    let at = ADDRESS_WORDS * i;
    !crate::is_well_formed(list[at] / 65536, list[at + 1], list[at + 2])
}

// The first malformed address.
pub fn find_malformed(list: &[u64]) -> Option<usize>
    ensures { result ≡ find_malformed list.now }
{
    find_first(count_addresses(list), |i| is_malformed(list, i))
}

// A list is refused where an address of it is malformed.
pub fn list_refusal(list: &[u64]) -> Result<(), Refusal>
    ensures { result ≡ verdict (list_refusal list.now) }
{
    if find_malformed(list).is_some() {
        Err(Refusal(Why::AddressMalformed))
    } else {
        Ok(())
    }
}

// The first address of the list that has these words.
pub fn find_words(list: &[u64], first: u64, low: u64, high: u64) -> Option<usize>
    ensures { result ≡ find_words list.now first low high }
{
    find_first(
        count_addresses(list),
        |i| crate::has_words(list, ADDRESS_WORDS * i, first, low, high),
    )
}

// Address i of the list is one of ours.
fn is_ours(list: &[u64], i: usize, ours: &[u64]) -> bool
    requires { i < count list.now }
    ensures { result ≡ is_ours list.now ours.now i }
{
    let at = ADDRESS_WORDS * i;
    find_words(ours, list[at], list[at + 1], list[at + 2]).is_some()
}

// The first address of the list that is one of ours.
fn find_ours(list: &[u64], ours: &[u64]) -> Option<usize>
    ensures { result ≡ find_ours list.now ours.now }
{
    find_first(count_addresses(list), |i| is_ours(list, i, ours))
}

// Whether any address of the list is one of ours.
pub fn any_ours(list: &[u64], ours: &[u64]) -> bool
    ensures { result ≡ any_ours list.now ours.now }
{
    find_ours(list, ours).is_some()
}
