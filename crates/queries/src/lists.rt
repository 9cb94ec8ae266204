// Queries that fill a lent list from its start; where it is too short, 14, and it is as it was.
ghost use Rattle.std.specs.Prelude.{◌≡◌, ℕ, Bool, true, false, ◌<◌, ◌≤◌, length};
ghost use Rattle.serialize.specs.Runs.{splice};
ghost use Rattle.places.specs.Layout.{Shaped};
ghost use Rattle.places.specs.Finds.{used_count};
ghost use Rattle.server.specs.Ready.{slots_refusal};
ghost use Rattle.queries.specs.Queries.{value_of, listed, told, listed_into, public_into};

use crate::Reply;
use refusal::{Refusal, Why};
use server::NetcodeServer;

// What is said of the used places, in their order, from the list's start.
fn fill_used<F: Fn(usize) -> u64>(slots: &[u64], n: usize, value: F, list: &mut [u64])
    requires table { Shaped slots.now n × (used_count slots.now n ≤ length list.old) }
    requires called { (i : ℕ) → i < n → F.pre value i }
    ensures { (ids : Bool) → ((i : ℕ) → i < n → (r : ℕ) → F.post value i r → r ≡ value_of slots.now n ids i) → list.new ≡ splice list.old 0 (listed slots.now n ids n) }
{
    let mut k: usize = 0;
    for i in 0..n {
        if slots[i] == 0 {
            continue;
        }
        list[k] = value(i);
        k += 1;
    }
}

// 23, 14; else how many there are, and the list.
fn list_used<F: Fn(usize) -> u64>(
    server: NetcodeServer,
    slots: &[u64],
    value: F,
    list: &mut [u64],
) -> Reply
    requires { slots_refusal server.set (length slots.now) ≡ 0 → (i : ℕ) → i < server.set.slots → F.pre value i }
    ensures { (ids : Bool) → ((i : ℕ) → i < server.set.slots → (r : ℕ) → F.post value i r → r ≡ value_of slots.now server.set.slots ids i) → told result list.new ≡ listed_into server slots.now ids list.old }
{
    let set = server.set;
    if let Err(refusal) = server::slots_refusal(set, slots.len()) {
        return Reply::Refused(refusal);
    }
    let count = places::count_used(slots, set.slots);
    if list.len() < count {
        return Reply::Refused(Refusal(Why::OutputShort));
    }
    fill_used(slots, set.slots, value, list);
    Reply::Count(count)
}

// The ids of the connected, in the order of their slots.
#[tactic(auto, unfolding(crate::specs::Queries::value_of, serialize::specs::Choice::pick))]
pub fn clients_id(server: NetcodeServer, slots: &[u64], list: &mut [u64]) -> Reply
    ensures { told result list.new ≡ listed_into server slots.now true list.old }
{
    let n = server.set.slots;
    list_used(server, slots, move |i| places::client_id(slots, n, i), list)
}

// The slots of the connected.
#[tactic(auto, unfolding(crate::specs::Queries::value_of, serialize::specs::Choice::pick))]
pub fn clients_slot(server: NetcodeServer, slots: &[u64], list: &mut [u64]) -> Reply
    ensures { told result list.new ≡ listed_into server slots.now false list.old }
{
    list_used(server, slots, |i| i as u64, list)
}

// The public addresses, three words each.
pub fn addresses(server: NetcodeServer, public_addresses: &[u64], list: &mut [u64]) -> Reply
    ensures { told result list.new ≡ public_into server public_addresses.now list.old }
{
    let set = server.set;
    let len = public_addresses.len();
    if let Err(refusal) = server::list_refusal(set, len) {
        return Reply::Refused(refusal);
    }
    if list.len() < len {
        return Reply::Refused(Refusal(Why::OutputShort));
    }
    serialize::copy(list, 0, public_addresses, 0, len);
    Reply::Count(set.addresses)
}
