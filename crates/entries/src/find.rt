// The three searches that an entry's place depends on. Two are the loop over token entries that yields its place by `break` which
// document 01 names; the third needs each place itself, for two of its columns.
ghost use Rattle.std.specs.Prelude.{◌≡◌, ◌<◌};
ghost use Rattle.entries.specs.Layout.{Shaped};
ghost use Rattle.entries.specs.Finds.{find_match, find_empty, oldest, older};

use crate::{NETCODE_MAC_BYTES, body};

// The last used place with these bytes: the Rust walks on past a match, so we walk from the end.
pub fn find_match(entries: &[u8], k: usize, mac: &[u8; NETCODE_MAC_BYTES]) -> Option<usize>
    requires { Shaped entries.now k }
    ensures { result ≡ find_match entries.now k mac.now }
{
    let mut i = k;
    loop {
        if i == 0 {
            break None;
        }
        i -= 1;
        if body::is_match(entries, k, i, mac) {
            break Some(i);
        }
    }
}

// The first empty place.
pub fn find_empty(entries: &[u8], k: usize) -> Option<usize>
    requires { Shaped entries.now k }
    ensures { result ≡ find_empty entries.now k }
{
    let mut i: usize = 0;
    loop {
        if i >= k {
            break None;
        }
        if entries[i] == 0 {
            break Some(i);
        }
        i += 1;
    }
}

// Of two places the one with the lower time, the first where they are equal.
fn older(entries: &[u8], k: usize, best: usize, i: usize) -> usize
    requires { Shaped entries.now k × (best < k) × (i < k) }
    ensures { (result ≡ older entries.now k best i) × (result < k) }
{
    if body::time_at(entries, k, i).is_before(body::time_at(entries, k, best)) {
        i
    } else {
        best
    }
}

// The first place with the lowest time, marks left aside: it is asked for where no place is empty.
pub fn find_oldest(entries: &[u8], k: usize) -> usize
    requires { Shaped entries.now k }
    ensures { (result ≡ oldest entries.now k) × (result < k) }
{
    let mut best: usize = 0;
    for i in 0..k {
        best = older(entries, k, best, i);
    }
    best
}
