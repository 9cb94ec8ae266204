// What stands in the record: no table is lent, and nothing is refused.
ghost use Rattle.std.specs.Prelude.{◌≡◌};

use server::NetcodeServer;
use times::Time;

pub fn max_clients(server: NetcodeServer) -> usize
    ensures { result ≡ server.max_clients }
{
    server.max_clients
}

pub fn current_time(server: NetcodeServer) -> Time
    ensures { result ≡ server.current_time }
{
    server.current_time
}
