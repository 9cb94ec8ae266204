// The client limit.
ghost use Rattle.std.specs.Prelude.{◌≡◌};
ghost use Rattle.upkeep.specs.Limits.{limited};

use places::NETCODE_MAX_CLIENTS;
use server::{Answer, NetcodeServer, Step};

// 16; else the limit, at most 1,024, may pass the number of slots.
pub fn set_max_clients(server: NetcodeServer, max_clients: usize) -> Step
    ensures { result ≡ limited server max_clients }
{
    let ask = server.ask;
    if let Err(refusal) = server::call_refusal(ask, Ok(())) {
        return Step {
            server,
            answer: Answer::Refused(refusal),
        };
    }
    Step {
        server: server::with_limit(server, max_clients.min(NETCODE_MAX_CLIENTS)),
        answer: Answer::Nothing,
    }
}
