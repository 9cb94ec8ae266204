// A window where it lies in a table of words: the highest, then the places. Loading and storing move it whole; the test and the
// advance in place read and write two words, and promise what loading, the method and storing would do.
ghost use Rattle.std.specs.Prelude.{◌≡◌, ◌+◌, ◌≤◌, length};
ghost use Rattle.refusal.specs.Verdicts.{verdict};
ghost use Rattle.replay_protection.specs.Replay.{refusal, arrive};
ghost use Rattle.replay_protection.specs.Stored.{window_at, put_window};
ghost use Rattle.replay_protection.specs.Ours.{width, window_of, protection};

use crate::{NETCODE_REPLAY_BUFFER_SIZE, ReplayProtection};
use refusal::Refusal;

pub fn load_window(t: &[u64], at: usize) -> ReplayProtection
    requires { at + 1 + width ≤ length t.now }
    ensures { result ≡ protection (window_at width t.now at) }
{
    let most_recent_sequence = t[at];
    let mut received_packet = [0u64; NETCODE_REPLAY_BUFFER_SIZE];
    serialize::copy(
        &mut received_packet,
        0,
        t,
        at + 1,
        NETCODE_REPLAY_BUFFER_SIZE,
    );
    ReplayProtection {
        most_recent_sequence,
        received_packet,
    }
}

pub fn store_window(t: &mut [u64], at: usize, window: ReplayProtection)
    requires { at + 1 + width ≤ length t.old }
    ensures { t.new ≡ put_window t.old at (window_of window) }
{
    t[at] = window.most_recent_sequence;
    serialize::copy(
        t,
        at + 1,
        &window.received_packet,
        0,
        NETCODE_REPLAY_BUFFER_SIZE,
    );
}

// `refusal` of the window at index at.
pub fn refusal_at(t: &[u64], at: usize, sequence: u64) -> Result<(), Refusal>
    requires { at + 1 + width ≤ length t.now }
    ensures { result ≡ verdict (refusal width (window_at width t.now at) sequence) }
{
    let held = t[at + 1 + crate::index(sequence)];
    crate::refusal_by(t[at], held, sequence)
}

// `advance_sequence` of the window at index at.
pub fn advance_at(t: &mut [u64], at: usize, sequence: u64)
    requires { at + 1 + width ≤ length t.old }
    ensures { t.new ≡ put_window t.old at (arrive width (window_at width t.old at) sequence) }
{
    let place = at + 1 + crate::index(sequence);
    let most = t[at];
    if crate::refusal_by(most, t[place], sequence).is_err() {
        return;
    }
    t[at] = most.max(sequence);
    t[place] = sequence;
}
