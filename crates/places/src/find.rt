// The searches: each takes the lowest place, and is the loop over slots that yields its place by `break` which document 01 names.
ghost use Rattle.std.specs.Prelude.{◌≡◌, ◌<◌, ◌≤◌};
ghost use Rattle.places.specs.Layout.{Shaped};
ghost use Rattle.places.specs.Finds.{has_address, has_id, free_at, find_address, find_id, find_free, used_count};

use addresses::Address;

// Place i is used and has the address, given by its three words. Few places have it, so the mark is looked at last.
fn has_address(t: &[u64], n: usize, i: usize, first: u64, low: u64, high: u64) -> bool
    requires { Shaped t.now n × (i < n) }
    ensures { result ≡ has_address t.now n first low high i }
{
    addresses::has_words(t, 2 * n + 3 * i, first, low, high) && t[i] != 0
}

// The lowest used place with the address.
pub fn find_by_address(t: &[u64], n: usize, addr: Address) -> Option<usize>
    requires { Shaped t.now n }
    ensures { result ≡ find_address t.now n addr }
{
    let first = addr.first_word();
    let low = addr.low;
    let high = addr.high;
    let mut i: usize = 0;
    loop {
        if i >= n {
            break None;
        }
        if has_address(t, n, i, first, low, high) {
            break Some(i);
        }
        i += 1;
    }
}

// Place i is used and has the id.
fn has_id(t: &[u64], n: usize, i: usize, client_id: u64) -> bool
    requires { Shaped t.now n × (i < n) }
    ensures { result ≡ has_id t.now n client_id i }
{
    t[n + i] == client_id && t[i] != 0
}

// The lowest used place with the id.
pub fn find_by_id(t: &[u64], n: usize, client_id: u64) -> Option<usize>
    requires { Shaped t.now n }
    ensures { result ≡ find_id t.now n client_id }
{
    let mut i: usize = 0;
    loop {
        if i >= n {
            break None;
        }
        if has_id(t, n, i, client_id) {
            break Some(i);
        }
        i += 1;
    }
}

// The lowest free place.
pub fn find_free(t: &[u64], n: usize) -> Option<usize>
    requires { Shaped t.now n }
    ensures { result ≡ find_free t.now n }
{
    let mut free: usize = 0;
    loop {
        if free >= n {
            break None;
        }
        if t[free] == 0 {
            break Some(free);
        }
        free += 1;
    }
}

// How many places are used. (`filter` and `count` of an iterator take over three times as long.)
pub fn count_used(t: &[u64], n: usize) -> usize
    requires { Shaped t.now n }
    ensures { result ≡ used_count t.now n }
{
    let mut count: usize = 0;
    for mark in &t[..n] {
        count += usize::from(*mark != 0);
    }
    count
}
