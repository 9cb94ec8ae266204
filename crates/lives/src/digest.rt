// Three numbers that stand for the tables: of slots and of token entries, place after place, and of pending, in any order; each over its
// used places alone. Two tables that differ in what a used place holds have, but for one case in four thousand million, other numbers.
ghost use Rattle.std.specs.Prelude.{◌+◌, ◌*◌, ◌<◌, ◌≤◌, length};

use crate::say::Said;

// The largest prime under 2^32.
const P: u64 = 4294967291;

fn step(h: u64, w: u64) -> u64
    requires { h < 4294967291 }
    ensures { result < 4294967291 }
{
    (h * 31 + (w % 4294967296) * 7 + w / 4294967296) % P
}

// ---- connections, by places, since each stands in four columns

fn words(table: &[u64], at: usize, n: usize, from: u64) -> u64
    requires { (at + n ≤ length table.now) × (from < 4294967291) }
    ensures { result < 4294967291 }
{
    let mut h = from;
    for w in &table[at..at + n] {
        h = step(h, *w);
    }
    h
}

// The id, the address and the body of one of n places.
fn place(table: &[u64], n: usize, i: usize, from: u64) -> u64
    requires { (310 * n ≤ length table.now) × (i < n) × (from < 4294967291) }
    ensures { result < 4294967291 }
{
    let id = words(table, n + i, 1, from);
    let address = words(table, 2 * n + 3 * i, 3, id);
    words(table, 5 * n + 305 * i, 305, address)
}

fn with_slot(table: &[u64], n: usize, i: usize, h: u64) -> u64
    requires { (310 * n ≤ length table.now) × (i < n) × (h < 4294967291) }
    ensures { result < 4294967291 }
{
    if table[i] == 0 {
        return h;
    }
    place(table, n, i, step(h, i as u64))
}

fn slots(table: &[u64]) -> u64 {
    let n = table.len() / 310;
    let mut h: u64 = 0;
    for i in 0..n {
        h = with_slot(table, n, i, h);
    }
    h
}

fn with_pending(table: &[u64], n: usize, i: usize, sum: u64) -> u64
    requires { (310 * n ≤ length table.now) × (i < n) × (sum < 4294967291) }
    ensures { result < 4294967291 }
{
    if table[i] == 0 {
        return sum;
    }
    (sum + place(table, n, i, 0)) % P
}

fn pending(table: &[u64]) -> u64 {
    let n = table.len() / 310;
    let mut sum: u64 = 0;
    for i in 0..n {
        sum = with_pending(table, n, i, sum);
    }
    sum
}

// ---- token entries

fn body(table: &[u8], at: usize, from: u64) -> u64
    requires { (at + 47 ≤ length table.now) × (from < 4294967291) }
    ensures { result < 4294967291 }
{
    let mut h = from;
    for b in &table[at..at + 47] {
        h = step(h, u64::from(*b));
    }
    h
}

fn with_entry(table: &[u8], n: usize, i: usize, h: u64) -> u64
    requires { (48 * n ≤ length table.now) × (i < n) × (h < 4294967291) }
    ensures { result < 4294967291 }
{
    if table[i] == 0 {
        return h;
    }
    body(table, n + 47 * i, step(h, i as u64))
}

fn entries(table: &[u8]) -> u64 {
    let n = table.len() / 48;
    let mut h: u64 = 0;
    for i in 0..n {
        h = with_entry(table, n, i, h);
    }
    h
}

// The three, slots, pending and token entries, after what was said.
pub(crate) fn tell(said: &mut Said, connected: &[u64], asking: &[u64], used: &[u8]) {
    said.numbers(&[slots(connected), pending(asking), entries(used)]);
}
