// The searches of a table of up to 4,096 places. 1 and the place in `place`, 0 where there is none, or a refusal's number.
ghost use Rattle.std.specs.Prelude.{◌≡◌};
ghost use Rattle.table_calls.specs.Calls.{told, find_address_call, find_id_call, find_free_call, count_call, address_call, ours_call};

#[unsafe(no_mangle)]
pub extern "C" fn pump_find_by_address(
    t: &[u64],
    kind: u8,
    bytes: &[u8; 16],
    port: u16,
    place: &mut [u64; 1],
) -> u8
    ensures { told result place.new ≡ find_address_call t.now kind bytes.now port place.old }
{
    table_calls::pump_find_by_address(t, kind, bytes, port, place)
}

#[unsafe(no_mangle)]
pub extern "C" fn pump_find_by_id(t: &[u64], client_id: u64, place: &mut [u64; 1]) -> u8
    ensures { told result place.new ≡ find_id_call t.now client_id place.old }
{
    table_calls::pump_find_by_id(t, client_id, place)
}

#[unsafe(no_mangle)]
pub extern "C" fn pump_find_free(t: &[u64], place: &mut [u64; 1]) -> u8
    ensures { told result place.new ≡ find_free_call t.now place.old }
{
    table_calls::pump_find_free(t, place)
}

// 1 and how many places are used, in `count`.
#[unsafe(no_mangle)]
pub extern "C" fn pump_count_used(t: &[u64], count: &mut [u64; 1]) -> u8
    ensures { told result count.new ≡ count_call t.now count.old }
{
    table_calls::pump_count_used(t, count)
}

// 0, and the three words of an address in out; 19 where it is malformed.
#[unsafe(no_mangle)]
pub extern "C" fn pump_address(kind: u8, bytes: &[u8; 16], port: u16, out: &mut [u64; 3]) -> u8
    ensures { told result out.new ≡ address_call kind bytes.now port out.old }
{
    table_calls::pump_address(kind, bytes, port, out)
}

// 1 where an address of the list is one of ours, 0 where none is, 19 where one of either list is malformed.
#[unsafe(no_mangle)]
pub extern "C" fn pump_any_ours(list: &[u64], ours: &[u64]) -> u8
    ensures { result ≡ ours_call list.now ours.now }
{
    table_calls::pump_any_ours(list, ours)
}
