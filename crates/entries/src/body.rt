// One entry where it lies: a mark byte, and a body of 47: time 8 + 4, address 1 + 16 + 2, the token's last 16 private bytes.
ghost use Rattle.std.specs.Prelude.{◌≡◌, ◌+◌, ◌<◌, ◌≤◌, length};
ghost use Rattle.serialize.specs.Runs.{splice};
ghost use Rattle.entries.specs.Layout.{Shaped, used_at, time_at, address_at, match_at, body_of, written, address_bytes};

use crate::{ConnectTokenEntry, NETCODE_MAC_BYTES};
use addresses::Address;
use times::Time;

const BODY_BYTES: usize = 47;

// Offsets in a body.
const NANOS: usize = 8;

const KIND: usize = 12;

const LOW: usize = 13;

const HIGH: usize = 21;

const PORT: usize = 29;

const MAC: usize = 31;

// A mark of 0 is empty, any other used.
pub fn is_used(entries: &[u8], i: usize) -> bool
    requires { i < length entries.now }
    ensures { result ≡ used_at entries.now i }
{
    entries[i] != 0
}

pub fn time_at(entries: &[u8], k: usize, i: usize) -> Time
    requires { Shaped entries.now k × (i < k) }
    ensures { result ≡ time_at entries.now k i }
{
    let at = k + BODY_BYTES * i;
    Time {
        secs: serialize::read_u64(entries, at),
        nanos: serialize::read_u32(entries, at + NANOS) as u64,
    }
}

pub fn address_at(entries: &[u8], k: usize, i: usize) -> Address
    requires { Shaped entries.now k × (i < k) }
    ensures { result ≡ address_at entries.now k i }
{
    let at = k + BODY_BYTES * i;
    Address {
        kind: entries[at + KIND],
        port: serialize::read_u16(entries, at + PORT),
        low: serialize::read_u64(entries, at + LOW),
        high: serialize::read_u64(entries, at + HIGH),
    }
}

// Place i is used by a token with these bytes. Few have them, so the mark is looked at last.
pub fn is_match(entries: &[u8], k: usize, i: usize, mac: &[u8; NETCODE_MAC_BYTES]) -> bool
    requires { Shaped entries.now k × (i < k) }
    ensures { result ≡ match_at entries.now k mac.now i }
{
    serialize::same_bytes(entries, k + BODY_BYTES * i + MAC, mac, 0, NETCODE_MAC_BYTES)
        && is_used(entries, i)
}

fn write_address(entries: &mut [u8], at: usize, address: Address)
    requires { at + 19 ≤ length entries.old }
    ensures { entries.new ≡ splice entries.old at (address_bytes address) }
{
    entries[at] = address.kind;
    serialize::write_u64(entries, at + (LOW - KIND), address.low);
    serialize::write_u64(entries, at + (HIGH - KIND), address.high);
    serialize::write_u16(entries, at + (PORT - KIND), address.port);
}

fn write_body(entries: &mut [u8], at: usize, entry: ConnectTokenEntry)
    requires { at + 47 ≤ length entries.old }
    ensures { entries.new ≡ splice entries.old at (body_of «entry») }
{
    serialize::write_u64(entries, at, entry.time.secs);
    serialize::write_u32(entries, at + NANOS, (entry.time.nanos % 4294967296) as u32);
    write_address(entries, at + KIND, entry.address);
    serialize::copy(entries, at + MAC, &entry.mac, 0, NETCODE_MAC_BYTES);
}

// Mark empty, body, mark used: a place whose body is half written is never a used one.
pub fn write_entry(entries: &mut [u8], k: usize, i: usize, entry: ConnectTokenEntry)
    requires { Shaped entries.old k × (i < k) }
    ensures { entries.new ≡ written entries.old k i «entry» }
{
    entries[i] = 0;
    write_body(entries, k + BODY_BYTES * i, entry);
    entries[i] = 1;
}
