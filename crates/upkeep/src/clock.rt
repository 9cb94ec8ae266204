// The clock, and the pending places that it drops.
ghost use Rattle.std.specs.Prelude.{◌≡◌, ◌<◌, set};
ghost use Rattle.serialize.specs.Runs.{splice};
ghost use Rattle.places.specs.Layout.{Shaped};
ghost use Rattle.upkeep.specs.Clocks.{mark_left, marks_left, done, updated};

use server::{Answer, NetcodeServer, Step};
use times::Time;

// Place i is emptied where its token has expired: the seconds are past the expiry, not at it. Only a used place's body is looked at.
fn drop_if_expired(pending: &mut [u64], m: usize, i: usize, secs: u64)
    requires { Shaped pending.old m × (i < m) }
    ensures { pending.new ≡ set pending.old i (mark_left pending.old m secs i) }
{
    if pending[i] == 0 {
        return;
    }
    if secs > records::expire_timestamp(pending, m, i) {
        pending[i] = 0;
    }
}

// By places, since a mark and its body stand in two columns.
fn drop_expired(pending: &mut [u64], m: usize, secs: u64)
    requires { Shaped pending.old m }
    ensures { pending.new ≡ splice pending.old 0 (marks_left pending.old m secs m) }
{
    for i in 0..m {
        drop_if_expired(pending, m, i, secs);
    }
}

// 16, 23, 20; else the clock moves on by exactly the step, and what has expired by then is dropped.
pub fn update(server: NetcodeServer, pending: &mut [u64], duration: Time) -> Step
    ensures { done result pending.new ≡ updated server pending.old duration }
{
    let set = server.set;
    let ask = server.ask;
    let tables = server::pending_refusal(set, pending.len());
    if let Err(refusal) = server::call_refusal(ask, tables) {
        return Step {
            server,
            answer: Answer::Refused(refusal),
        };
    }
    let current_time = server.current_time;
    match current_time.add(duration) {
        Ok(clock) => {
            drop_expired(pending, set.pending, clock.secs);
            Step {
                server: server::with_clock(server, clock),
                answer: Answer::Nothing,
            }
        }
        Err(refusal) => Step {
            server,
            answer: Answer::Refused(refusal),
        },
    }
}
