// The token entries.
ghost use Rattle.std.specs.Prelude.{◌≡◌};
ghost use Rattle.table_calls.specs.Calls.{told, entry_call};

use addresses::Address;
use entries::ConnectTokenEntry;
use times::Time;

// 1 where the token may be used from the address, 0 where its last entry has another; 23, 19.
pub fn pump_find_or_add_entry(
    table: &mut [u8],
    secs: u64,
    nanos: u64,
    kind: u8,
    bytes: &[u8; 16],
    port: u16,
    mac: &[u8; 16],
) -> u8
    ensures { told result table.new ≡ entry_call table.old secs nanos kind bytes.now port mac.now }
{
    if let Err(refusal) = entries::entries_refusal(table) {
        return refusal.number();
    }
    let address = Address::new(kind, bytes, port);
    if let Err(refusal) = address.refusal() {
        return refusal.number();
    }
    let new_entry = ConnectTokenEntry {
        time: Time { secs, nanos },
        address,
        mac: *mac,
    };
    let k = entries::count_entries(table);
    u8::from(entries::find_or_add_connect_token_entry(table, k, new_entry))
}
