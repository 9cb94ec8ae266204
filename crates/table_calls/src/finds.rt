// The searches of a table of up to 4,096 places. 1 and the place in `place`, 0 where there is none, or a refusal's number.
ghost use Rattle.std.specs.Prelude.{◌≡◌};
ghost use Rattle.table_calls.specs.Calls.{told, find_address_call, find_id_call, find_free_call, count_call, address_call, ours_call, found_as};

use addresses::Address;
use places::NETCODE_MAX_PENDING_CLIENTS;

// What a search found, laid out.
fn lay(found: Option<usize>, place: &mut [u64; 1]) -> u8
    ensures { told result place.new ≡ found_as found place.old }
{
    match found {
        Some(i) => {
            *place = [i as u64];
            1
        }
        None => 0,
    }
}

pub fn pump_find_by_address(
    t: &[u64],
    kind: u8,
    bytes: &[u8; 16],
    port: u16,
    place: &mut [u64; 1],
) -> u8
    ensures { told result place.new ≡ find_address_call t.now kind bytes.now port place.old }
{
    if let Err(refusal) = places::places_refusal(t, NETCODE_MAX_PENDING_CLIENTS) {
        return refusal.number();
    }
    let addr = Address::new(kind, bytes, port);
    if let Err(refusal) = addr.refusal() {
        return refusal.number();
    }
    lay(
        places::find_by_address(t, places::count_places(t), addr),
        place,
    )
}

pub fn pump_find_by_id(t: &[u64], client_id: u64, place: &mut [u64; 1]) -> u8
    ensures { told result place.new ≡ find_id_call t.now client_id place.old }
{
    if let Err(refusal) = places::places_refusal(t, NETCODE_MAX_PENDING_CLIENTS) {
        return refusal.number();
    }
    lay(
        places::find_by_id(t, places::count_places(t), client_id),
        place,
    )
}

pub fn pump_find_free(t: &[u64], place: &mut [u64; 1]) -> u8
    ensures { told result place.new ≡ find_free_call t.now place.old }
{
    if let Err(refusal) = places::places_refusal(t, NETCODE_MAX_PENDING_CLIENTS) {
        return refusal.number();
    }
    lay(places::find_free(t, places::count_places(t)), place)
}

// 1 and how many places are used, in `count`.
pub fn pump_count_used(t: &[u64], count: &mut [u64; 1]) -> u8
    ensures { told result count.new ≡ count_call t.now count.old }
{
    if let Err(refusal) = places::places_refusal(t, NETCODE_MAX_PENDING_CLIENTS) {
        return refusal.number();
    }
    *count = [places::count_used(t, places::count_places(t)) as u64];
    1
}

// 0, and the three words of an address in out; 19 where it is malformed.
pub fn pump_address(kind: u8, bytes: &[u8; 16], port: u16, out: &mut [u64; 3]) -> u8
    ensures { told result out.new ≡ address_call kind bytes.now port out.old }
{
    let addr = Address::new(kind, bytes, port);
    if let Err(refusal) = addr.refusal() {
        return refusal.number();
    }
    *out = [addr.first_word(), addr.low, addr.high];
    0
}

// 1 where an address of the list is one of ours, 0 where none is, 19 where one of either list is malformed.
pub fn pump_any_ours(list: &[u64], ours: &[u64]) -> u8
    ensures { result ≡ ours_call list.now ours.now }
{
    if let Err(refusal) = addresses::list_refusal(ours) {
        return refusal.number();
    }
    if let Err(refusal) = addresses::list_refusal(list) {
        return refusal.number();
    }
    u8::from(addresses::any_ours(list, ours))
}
