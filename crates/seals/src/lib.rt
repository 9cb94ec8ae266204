// The host's answer to an ask to seal.
#![tactic(auto)]

ghost use Rattle.std.specs.Prelude.{◌≡◌, false, length};
ghost use Rattle.refusal.specs.Verdicts.{verdict};
ghost use Rattle.places.specs.Layout.{Shaped};
ghost use Rattle.server.specs.Ready.{misfits};
ghost use Rattle.turns.specs.Outcomes.{state, came};
ghost use Rattle.seals.specs.Seals.{seal_refusal, by_stage, seals};

use refusal::{Refusal, Why};
use server::{HELD_BYTES, NetcodeServer, Stage, Wanted};
use turns::Turn;

mod sealed;
mod waits;

// 17, 23, 18.
fn seal_refusal(
    server: NetcodeServer,
    slots: &[u64],
    pending: &[u64],
    out: usize,
) -> Result<(), Refusal>
    ensures { result ≡ verdict (seal_refusal (state server slots.now pending.now) out) }
{
    let set = server.set;
    let ask = server.ask;
    let tables = server::both_tables_refusal(set, slots.len(), pending.len());
    server::answer_refusal(ask, tables, Wanted::Seal, set, ask.datagram, out)
}

// By the ask's stage. Only a seal's gets here; the others were refused.
fn by_stage(
    server: NetcodeServer,
    granted: bool,
    slots: &mut [u64],
    pending: &mut [u64],
    held: &[u8; HELD_BYTES],
    out: usize,
) -> Turn
    requires { Shaped slots.old server.set.slots × Shaped pending.old server.set.pending × (misfits server.ask.stage server.set.slots server.set.pending server.ask.datagram out ≡ false) }
    ensures { came result slots.new pending.new ≡ by_stage (state server slots.old pending.old) granted held.now out server.ask.stage }
{
    let ask = server.ask;
    let stage = ask.stage;
    match stage {
        Stage::Idle => turns::refused(server, Refusal(Why::NoAsk)),
        Stage::Packet { .. } => turns::refused(server, Refusal(Why::AnswerUnfit)),
        Stage::Token { .. } => turns::refused(server, Refusal(Why::AnswerUnfit)),
        Stage::Challenge { .. } => turns::refused(server, Refusal(Why::AnswerUnfit)),
        Stage::Seal {
            goal,
            sequence,
            end,
        } => {
            if granted {
                return sealed::sealed(server, slots, pending, held, out, sequence, end, goal);
            }
            sealed::unsealed(server, goal)
        }
    }
}

// Yes or no to an ask to seal. The output is not written: the host has sealed the packet where it stands.
pub fn answer_seal(
    server: NetcodeServer,
    granted: bool,
    slots: &mut [u64],
    pending: &mut [u64],
    held: &[u8; HELD_BYTES],
    out: &[u8],
) -> Turn
    ensures { came result slots.new pending.new ≡ seals (state server slots.old pending.old) granted held.now (length out.now) }
{
    let room = out.len();
    if let Err(refusal) = seal_refusal(server, slots, pending, room) {
        return turns::refused(server, refusal);
    }
    by_stage(server, granted, slots, pending, held, room)
}
