// The host's answer to an ask to open a packet or a challenge.
#![tactic(auto)]

ghost use Rattle.std.specs.Prelude.{◌≡◌, false, ◌≤◌, length};
ghost use Rattle.refusal.specs.Verdicts.{verdict};
ghost use Rattle.places.specs.Layout.{Shaped};
ghost use Rattle.server.specs.Ready.{misfits};
ghost use Rattle.turns.specs.Outcomes.{state, came, written};
ghost use Rattle.opens.specs.Opens.{packet_opened, opened, open_answer_refusal, opens};

use bodies::PacketType;
use refusal::{Refusal, Why};
use server::{Answer, HELD_BYTES, NetcodeServer, Stage, Wanted};
use turns::Turn;

mod heard;
mod responses;

// 17, 23, 18.
fn answer_refusal(
    server: NetcodeServer,
    slots: &[u64],
    pending: &[u64],
    datagram: usize,
    out: usize,
) -> Result<(), Refusal>
    ensures { result ≡ verdict (open_answer_refusal (state server slots.now pending.now) datagram out) }
{
    let set = server.set;
    let tables = server::both_tables_refusal(set, slots.len(), pending.len());
    turns::open_refusal(server, tables, Wanted::Open, datagram, out)
}

// A packet that was opened, by its sender's table.
fn packet_opened(
    server: NetcodeServer,
    connected: bool,
    place: usize,
    kind: PacketType,
    sequence: u64,
    start: usize,
    slots: &mut [u64],
    pending: &mut [u64],
    out: usize,
    datagram: &[u8],
) -> Turn
    requires { Shaped slots.old server.set.slots × Shaped pending.old server.set.pending × (misfits (Stage.Packet connected place kind sequence start) server.set.slots server.set.pending (length datagram.now) out ≡ false) }
    ensures { came result slots.new pending.new ≡ packet_opened (state server slots.old pending.old) connected place kind sequence start out datagram.now }
{
    if connected {
        return heard::from_slot(server, place, kind, sequence, start, slots, datagram);
    }
    heard::from_pending(server, place, kind, sequence, start, pending, out, datagram)
}

// After a yes, by the ask's stage. Only the two that ask to open get here; the others were refused.
fn opened(
    server: NetcodeServer,
    slots: &mut [u64],
    pending: &mut [u64],
    held: &mut [u8; HELD_BYTES],
    out: &mut [u8],
    datagram: &[u8],
) -> Turn
    requires { Shaped slots.old server.set.slots × Shaped pending.old server.set.pending × (1400 ≤ length out.old) × (misfits server.ask.stage server.set.slots server.set.pending (length datagram.now) (length out.old) ≡ false) }
    ensures { written (came result slots.new pending.new) held.new out.new ≡ opened (state server slots.old pending.old) held.old out.old datagram.now server.ask.stage }
{
    let ask = server.ask;
    let stage = ask.stage;
    match stage {
        Stage::Idle => turns::refused(server, Refusal(Why::NoAsk)),
        Stage::Packet {
            connected,
            place,
            kind,
            sequence,
            start,
        } => {
            let room = out.len();
            packet_opened(
                server, connected, place, kind, sequence, start, slots, pending, room, datagram,
            )
        }
        Stage::Token { .. } => turns::refused(server, Refusal(Why::AnswerUnfit)),
        Stage::Challenge { place, start } => {
            responses::respond(server, place, start, slots, pending, held, out, datagram)
        }
        Stage::Seal { .. } => turns::refused(server, Refusal(Why::AnswerUnfit)),
    }
}

// Yes or no to an ask to open a packet or a challenge. The window moves after a yes alone, and before the body is read.
pub fn answer_open(
    server: NetcodeServer,
    granted: bool,
    slots: &mut [u64],
    pending: &mut [u64],
    held: &mut [u8; HELD_BYTES],
    out: &mut [u8],
    datagram: &[u8],
) -> Turn
    ensures { written (came result slots.new pending.new) held.new out.new ≡ opens (state server slots.old pending.old) granted held.old out.old datagram.now }
{
    if let Err(refusal) = answer_refusal(server, slots, pending, datagram.len(), out.len()) {
        return turns::refused(server, refusal);
    }
    if granted {
        return opened(server, slots, pending, held, out, datagram);
    }
    turns::closed(server, Answer::Refused(Refusal(Why::NotOpened)))
}
