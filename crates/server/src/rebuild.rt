// The record with one part of it new.
#![tactic(auto, unfolding(crate::specs::State::with_ask, crate::specs::State::with_clock, crate::specs::State::with_limit, crate::specs::State::with_counters))]

ghost use Rattle.std.specs.Prelude.{◌≡◌};
ghost use Rattle.server.specs.State.{with_ask, with_clock, with_limit, with_counters};

use crate::{Counters, NetcodeServer, OpenAsk};
use times::Time;

pub fn with_ask(server: NetcodeServer, ask: OpenAsk) -> NetcodeServer
    ensures { result ≡ with_ask server ask }
{
    NetcodeServer { ask, ..server }
}

pub fn with_clock(server: NetcodeServer, current_time: Time) -> NetcodeServer
    ensures { result ≡ with_clock server current_time }
{
    NetcodeServer {
        current_time,
        ..server
    }
}

pub fn with_limit(server: NetcodeServer, max_clients: usize) -> NetcodeServer
    ensures { result ≡ with_limit server max_clients }
{
    NetcodeServer {
        max_clients,
        ..server
    }
}

pub fn with_counters(server: NetcodeServer, counters: Counters) -> NetcodeServer
    ensures { result ≡ with_counters server counters }
{
    NetcodeServer { counters, ..server }
}
