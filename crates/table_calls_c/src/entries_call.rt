// The token entries.
ghost use Rattle.std.specs.Prelude.{◌≡◌};
ghost use Rattle.table_calls.specs.Calls.{told, entry_call};

// 1 where the token may be used from the address, 0 where its last entry has another; 23, 19.
#[unsafe(no_mangle)]
pub extern "C" fn pump_find_or_add_entry(
    table: &mut [u8],
    secs: u64,
    nanos: u64,
    kind: u8,
    bytes: &[u8; 16],
    port: u16,
    mac: &[u8; 16],
) -> u8
    ensures { told result table.new ≡ entry_call table.old secs nanos kind bytes.now port mac.now }
{
    table_calls::pump_find_or_add_entry(table, secs, nanos, kind, bytes, port, mac)
}
