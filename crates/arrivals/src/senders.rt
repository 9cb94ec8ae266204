// Who sends: the slots are looked at first.
ghost use Rattle.std.specs.Prelude.{◌≡◌};
ghost use Rattle.places.specs.Layout.{Shaped};
ghost use Rattle.places.specs.Finds.{find_address};
ghost use Rattle.arrivals.specs.Senders.{sender_of, waiting};

use crate::Sender;
use addresses::Address;

fn find_waiting(pending: &[u64], m: usize, addr: Address) -> Sender
    requires { Shaped pending.now m }
    ensures { result ≡ waiting (find_address pending.now m addr) }
{
    match places::find_by_address(pending, m, addr) {
        Some(j) => Sender::Pending(j),
        None => Sender::Unknown,
    }
}

pub fn find_sender(slots: &[u64], n: usize, pending: &[u64], m: usize, addr: Address) -> Sender
    requires { Shaped slots.now n × Shaped pending.now m }
    ensures { result ≡ sender_of slots.now n pending.now m addr }
{
    match places::find_by_address(slots, n, addr) {
        Some(i) => Sender::Connected(i),
        None => find_waiting(pending, m, addr),
    }
}
