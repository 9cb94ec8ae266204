// How long a table is, by its number of places; 0 for more than there can be.
ghost use Rattle.std.specs.Prelude.{◌≡◌};
ghost use Rattle.netcode.specs.Calls.{size_of};

use addresses::ADDRESS_WORDS;
use entries::{ENTRY_BYTES, MAX_ENTRIES};
use places::{NETCODE_MAX_CLIENTS, NETCODE_MAX_PENDING_CLIENTS, PLACE_WORDS};

// More public addresses than this no list has.
const MAX_ADDRESSES: usize = 4294967295;

pub fn netcode_slots_words(slots: usize) -> usize
    ensures { result ≡ size_of slots 1024 310 }
{
    if slots > NETCODE_MAX_CLIENTS {
        return 0;
    }
    slots * PLACE_WORDS
}

pub fn netcode_pending_words(pending: usize) -> usize
    ensures { result ≡ size_of pending 4096 310 }
{
    if pending > NETCODE_MAX_PENDING_CLIENTS {
        return 0;
    }
    pending * PLACE_WORDS
}

pub fn netcode_entries_bytes(entries: usize) -> usize
    ensures { result ≡ size_of entries 2048 48 }
{
    if entries > MAX_ENTRIES {
        return 0;
    }
    entries * ENTRY_BYTES
}

pub fn netcode_addresses_words(addresses: usize) -> usize
    ensures { result ≡ size_of addresses 4294967295 3 }
{
    if addresses > MAX_ADDRESSES {
        return 0;
    }
    addresses * ADDRESS_WORDS
}
