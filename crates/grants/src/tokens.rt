// A private token that the host opened: silently nothing, denied, or a challenge.
ghost use Rattle.std.specs.Prelude.{◌≡◌, ◌≤◌, ◌||◌, length};
ghost use Rattle.places.specs.Layout.{Shaped};
ghost use Rattle.places.specs.Finds.{find_address};
ghost use Rattle.entries.specs.Layout as entry;
ghost use Rattle.grants.specs.Tokens.{met, dropped, welcomed, is_connected, no_place, use_of, admitted, considered};

use crate::{PrivateConnectToken, challenges};
use addresses::Address;
use entries::ConnectTokenEntry;
use server::{Answer, HELD_BYTES, NetcodeServer};
use times::Time;
use turns::Turn;

// The address or the id is connected.
fn is_connected(server: NetcodeServer, slots: &[u64], addr: Address, client_id: u64) -> bool
    requires { Shaped slots.now server.set.slots }
    ensures { result ≡ is_connected server slots.now addr client_id }
{
    let set = server.set;
    places::find_by_address(slots, set.slots, addr).is_some()
        || places::find_by_id(slots, set.slots, client_id).is_some()
}

// The address is not pending, and no pending place is free.
fn has_no_place(server: NetcodeServer, pending: &[u64], addr: Address) -> bool
    requires { Shaped pending.now server.set.pending }
    ensures { result ≡ no_place server pending.now addr }
{
    let set = server.set;
    places::find_by_address(pending, set.pending, addr).is_none()
        && places::find_free(pending, set.pending).is_none()
}

// Either of these.
fn is_ignored(
    server: NetcodeServer,
    slots: &[u64],
    pending: &[u64],
    addr: Address,
    client_id: u64,
) -> bool
    requires { Shaped slots.now server.set.slots × Shaped pending.now server.set.pending }
    ensures { result ≡ is_connected server slots.now addr client_id || no_place server pending.now addr }
{
    is_connected(server, slots, addr, client_id) || has_no_place(server, pending, addr)
}

// The pending place of an address, if there is one, is emptied.
fn drop_pending(pending: &mut [u64], m: usize, addr: Address)
    requires { Shaped pending.old m }
    ensures { pending.new ≡ dropped pending.old (find_address pending.old m addr) }
{
    match places::find_by_address(pending, m, addr) {
        Some(j) => records::empty(pending, m, j),
        None => {}
    }
}

// A token's use: now, from this address, with these last 16 private bytes.
fn use_of(time: Time, addr: Address, mac_low: u64, mac_high: u64) -> ConnectTokenEntry
    ensures { result ≡ use_of time addr mac_low mac_high }
{
    let mut mac = [0u8; 16];
    serialize::write_u64(&mut mac, 0, mac_low);
    serialize::write_u64(&mut mac, 8, mac_high);
    ConnectTokenEntry {
        time,
        address: addr,
        mac,
    }
}

// Denied where as many are connected as may be, and the sender is pending no more; else the challenge.
fn welcome(
    server: NetcodeServer,
    datagram: usize,
    addr: Address,
    expire_timestamp: u64,
    token: PrivateConnectToken,
    slots: &[u64],
    pending: &mut [u64],
    held: &mut [u8; HELD_BYTES],
    out: &mut [u8],
) -> Turn
    requires { Shaped slots.now server.set.slots × Shaped pending.old server.set.pending × (1400 ≤ length out.old) }
    ensures { met result pending.new held.new out.new ≡ welcomed server datagram addr expire_timestamp token slots.now pending.old held.old out.old }
{
    let set = server.set;
    if places::count_used(slots, set.slots) >= server.max_clients {
        drop_pending(pending, set.pending, addr);
        let key = token.server_to_client_key;
        return turns::deny(server, datagram, out, key, addr);
    }
    challenges::challenge(server, datagram, addr, expire_timestamp, token, held, out)
}

// The entry is written before the count is looked at.
pub fn consider(
    server: NetcodeServer,
    datagram: usize,
    addr: Address,
    expire_timestamp: u64,
    mac_low: u64,
    mac_high: u64,
    token: PrivateConnectToken,
    slots: &[u64],
    pending: &mut [u64],
    entries: &mut [u8],
    held: &mut [u8; HELD_BYTES],
    out: &mut [u8],
) -> Turn
    requires { Shaped slots.now server.set.slots × Shaped pending.old server.set.pending × entry.Shaped entries.old server.set.entries × (1400 ≤ length out.old) }
    ensures { admitted (met result pending.new held.new out.new) entries.new ≡ considered server datagram addr expire_timestamp mac_low mac_high token slots.now pending.old entries.old held.old out.old }
{
    if is_ignored(server, slots, pending, addr, token.client_id) {
        return turns::closed(server, Answer::Nothing);
    }
    let set = server.set;
    let time = server.current_time;
    let new_entry = use_of(time, addr, mac_low, mac_high);
    if entries::find_or_add_connect_token_entry(entries, set.entries, new_entry) {
        return welcome(
            server,
            datagram,
            addr,
            expire_timestamp,
            token,
            slots,
            pending,
            held,
            out,
        );
    }
    turns::closed(server, Answer::Nothing)
}
