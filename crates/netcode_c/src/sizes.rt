// How long a table is, by its number of places; 0 for more than there can be.
ghost use Rattle.std.specs.Prelude.{◌≡◌};
ghost use Rattle.netcode.specs.Calls.{size_of};

#[unsafe(no_mangle)]
pub extern "C" fn netcode_slots_words(slots: usize) -> usize
    ensures { result ≡ size_of slots 1024 310 }
{
    netcode::netcode_slots_words(slots)
}

#[unsafe(no_mangle)]
pub extern "C" fn netcode_pending_words(pending: usize) -> usize
    ensures { result ≡ size_of pending 4096 310 }
{
    netcode::netcode_pending_words(pending)
}

#[unsafe(no_mangle)]
pub extern "C" fn netcode_entries_bytes(entries: usize) -> usize
    ensures { result ≡ size_of entries 2048 48 }
{
    netcode::netcode_entries_bytes(entries)
}

#[unsafe(no_mangle)]
pub extern "C" fn netcode_addresses_words(addresses: usize) -> usize
    ensures { result ≡ size_of addresses 4294967295 3 }
{
    netcode::netcode_addresses_words(addresses)
}
