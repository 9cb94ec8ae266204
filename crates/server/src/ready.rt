// The tests that calls share: 23 for a table that is not set-up's, 16 before it for a call while an ask is open, 17 before and 18
// after it for an answer.
ghost use Rattle.std.specs.Prelude.{◌≡◌, ◌≤◌};
ghost use Rattle.refusal.specs.Verdicts.{verdict};
ghost use Rattle.server.specs.Ready.{code_of, wanted, room_of, misplaced, overrun, goal_misfits, seal_misfits, misfits, unfit, length_refusal, slots_refusal, pending_refusal, both_refusal, entries_refusal, list_refusal, all_refusal, call_verdict, answer_verdict};

use crate::{Goal, OpenAsk, SetUp, Stage, Wanted};
use entries::{ENTRY_BYTES, MAX_ENTRIES};
use places::{NETCODE_MAX_CLIENTS, NETCODE_MAX_PENDING_CLIENTS, PLACE_WORDS};
use refusal::{Refusal, Why};

const TAG: usize = 16;

const CHALLENGE_TOKEN: usize = 300;

// ---- tables

// 23 where the length is not that of the n places that set-up found.
fn length_refusal(len: usize, n: usize, most: usize) -> Result<(), Refusal>
    requires { most ≤ 4096 }
    ensures { result ≡ verdict (length_refusal len n most) }
{
    if n == 0 || n > most || len != n * PLACE_WORDS {
        return Err(Refusal(Why::TableUnfit));
    }
    Ok(())
}

pub fn slots_refusal(set: SetUp, slots: usize) -> Result<(), Refusal>
    ensures { result ≡ verdict (slots_refusal set slots) }
{
    length_refusal(slots, set.slots, NETCODE_MAX_CLIENTS)
}

pub fn pending_refusal(set: SetUp, pending: usize) -> Result<(), Refusal>
    ensures { result ≡ verdict (pending_refusal set pending) }
{
    length_refusal(pending, set.pending, NETCODE_MAX_PENDING_CLIENTS)
}

// Both tables of connections.
pub fn both_tables_refusal(set: SetUp, slots: usize, pending: usize) -> Result<(), Refusal>
    ensures { result ≡ verdict (both_refusal set slots pending) }
{
    slots_refusal(set, slots)?;
    pending_refusal(set, pending)
}

fn entries_refusal(set: SetUp, entries: usize) -> Result<(), Refusal>
    ensures { result ≡ verdict (entries_refusal set entries) }
{
    let k = set.entries;
    if k == 0 || k > MAX_ENTRIES || entries != k * ENTRY_BYTES {
        return Err(Refusal(Why::TableUnfit));
    }
    Ok(())
}

// The public addresses: three words each, as many as at set-up.
pub fn list_refusal(set: SetUp, addresses: usize) -> Result<(), Refusal>
    ensures { result ≡ verdict (list_refusal set addresses) }
{
    if addresses % 3 != 0 || addresses / 3 != set.addresses {
        return Err(Refusal(Why::TableUnfit));
    }
    Ok(())
}

// All that an answer about a private token is lent.
pub fn all_tables_refusal(
    set: SetUp,
    slots: usize,
    pending: usize,
    entries: usize,
    addresses: usize,
) -> Result<(), Refusal>
    ensures { result ≡ verdict (all_refusal set slots pending entries addresses) }
{
    both_tables_refusal(set, slots, pending)?;
    entries_refusal(set, entries)?;
    list_refusal(set, addresses)
}

// ---- calls

// 16 while an ask is open, then what the tables' test came to.
pub fn call_refusal(ask: OpenAsk, tables: Result<(), Refusal>) -> Result<(), Refusal>
    ensures { result ≡ call_verdict ask tables }
{
    if wanted(ask.stage).is_some() {
        return Err(Refusal(Why::AskOpen));
    }
    tables
}

// ---- answers

// The kind of answer that the ask at this stage wants; none where no ask is open.
#[tactic(auto, unfolding(crate::specs::Ready::wanted))]
fn wanted(stage: Stage) -> Option<Wanted>
    ensures { result ≡ wanted stage }
{
    match stage {
        Stage::Idle => None,
        Stage::Packet { .. } => Some(Wanted::Open),
        Stage::Token { .. } => Some(Wanted::Token),
        Stage::Challenge { .. } => Some(Wanted::Open),
        Stage::Seal { .. } => Some(Wanted::Seal),
    }
}

// How many places the table has in which a packet's sender stands.
#[tactic(auto, unfolding(crate::specs::Ready::room_of, serialize::specs::Choice::pick))]
fn room_of(connected: bool, slots: usize, pending: usize) -> usize
    ensures { result ≡ room_of connected slots pending }
{
    if connected { slots } else { pending }
}

// A place that the table does not have, or n bytes from index at that the buffer does not have.
#[tactic(auto, unfolding(crate::specs::Ready::misplaced))]
fn misplaced(place: usize, places: usize, room: usize, at: usize, n: usize) -> bool
    ensures { result ≡ misplaced place places room at n }
{
    place >= places || asks::past(room, at, n)
}

// A counter that can't be raised, or a packet longer than the output.
#[tactic(auto, unfolding(crate::specs::Ready::overrun))]
fn overrun(sequence: u64, end: usize, out: usize) -> bool
    ensures { result ≡ overrun sequence end out }
{
    sequence == u64::MAX || out < end
}

// Whether a seal is for a slot or a pending place that there is not.
#[tactic(auto, unfolding(crate::specs::Ready::goal_misfits))]
fn goal_misfits(goal: Goal, slots: usize, pending: usize) -> bool
    ensures { result ≡ goal_misfits goal slots pending }
{
    match goal {
        Goal::Denied { .. } => false,
        Goal::ChallengeToken { .. } => false,
        Goal::ChallengePacket { .. } => false,
        Goal::Connecting { place, slot } => place >= pending || slot >= slots,
        Goal::Sending { slot } => slot >= slots,
        Goal::Ending { .. } => false,
    }
}

// The same of a seal whole: its counter and its packet besides.
#[tactic(auto, unfolding(crate::specs::Ready::seal_misfits))]
fn seal_misfits(
    goal: Goal,
    sequence: u64,
    end: usize,
    slots: usize,
    pending: usize,
    out: usize,
) -> bool
    ensures { result ≡ seal_misfits goal sequence end slots pending out }
{
    goal_misfits(goal, slots, pending) || overrun(sequence, end, out)
}

// Whether the open ask speaks of places, parts or counters that there are not: no call leaves such a record.
#[tactic(auto, unfolding(crate::specs::Ready::misfits))]
fn misfits(stage: Stage, slots: usize, pending: usize, datagram: usize, out: usize) -> bool
    ensures { result ≡ misfits stage slots pending datagram out }
{
    match stage {
        Stage::Idle => false,
        Stage::Packet {
            connected,
            place,
            start,
            ..
        } => {
            let places = room_of(connected, slots, pending);
            misplaced(place, places, datagram, start, TAG)
        }
        Stage::Token { .. } => false,
        Stage::Challenge { place, start } => {
            misplaced(place, pending, datagram, start, CHALLENGE_TOKEN)
        }
        Stage::Seal {
            goal,
            sequence,
            end,
        } => { seal_misfits(goal, sequence, end, slots, pending, out) }
    }
}

// 18: an answer of another kind, buffers of another length, or an ask that does not fit its tables and buffers.
fn is_unfit(ask: OpenAsk, kind: Wanted, set: SetUp, datagram: usize, out: usize) -> bool
    ensures { result ≡ unfit ask (code_of kind) set datagram out }
{
    if wanted(ask.stage) != Some(kind) || datagram != ask.datagram || out != ask.out {
        return true;
    }
    misfits(ask.stage, set.slots, set.pending, datagram, out)
}

// 17 where none is open; what the tables' test came to; 18.
pub fn answer_refusal(
    ask: OpenAsk,
    tables: Result<(), Refusal>,
    kind: Wanted,
    set: SetUp,
    datagram: usize,
    out: usize,
) -> Result<(), Refusal>
    ensures { result ≡ answer_verdict ask tables (code_of kind) set datagram out }
{
    if wanted(ask.stage).is_none() {
        return Err(Refusal(Why::NoAsk));
    }
    tables?;
    if is_unfit(ask, kind, set, datagram, out) {
        return Err(Refusal(Why::AnswerUnfit));
    }
    Ok(())
}
