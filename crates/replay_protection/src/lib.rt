// The replay window of replay_protection.rs: which sequences a connection has accepted. Its facts are proved over any width;
// the code has the Rust's, 256.
#![tactic(auto)]

ghost use Rattle.std.specs.Prelude.{◌≡◌, ◌%◌};
ghost use Rattle.refusal.specs.Verdicts.{verdict};
ghost use Rattle.replay_protection.specs.Replay.{fresh, behind, repeated, spent, refusal_by, refuses, refusal, arrive};
ghost use Rattle.replay_protection.specs.Ours.{width, window_of, protection};

use refusal::{Refusal, Why};

mod table;

pub use table::{advance_at, load_window, refusal_at, store_window};

// The width: how many sequences the window spans.
pub const NETCODE_REPLAY_BUFFER_SIZE: usize = 256;

// The mark of a place that holds no sequence.
const EMPTY: u64 = 0xffff_ffff_ffff_ffff;

// The last sequence that a window takes, 2^64 - 257: from the next on, refusal 5.
const LAST: u64 = EMPTY - NETCODE_REPLAY_BUFFER_SIZE as u64;

// The highest sequence accepted, and a place for each remainder, with the last sequence accepted there.
#[derive(Clone, Copy)]
pub struct ReplayProtection {
    pub most_recent_sequence: u64,
    pub received_packet: [u64; NETCODE_REPLAY_BUFFER_SIZE],
}

// The place of a sequence.
fn index(sequence: u64) -> usize
    ensures { result ≡ sequence % width }
{
    (sequence % NETCODE_REPLAY_BUFFER_SIZE as u64) as usize
}

// The sequence is 256 or more behind the highest.
fn is_behind(most: u64, sequence: u64) -> bool
    ensures { result ≡ behind width most sequence }
{
    most.saturating_sub(sequence) >= NETCODE_REPLAY_BUFFER_SIZE as u64
}

// Its place holds it, or a later one.
fn is_repeated(held: u64, sequence: u64) -> bool
    ensures { result ≡ repeated held sequence }
{
    held != EMPTY && held >= sequence
}

// The window's test, by the two of its words that decide.
fn is_spent(most: u64, held: u64, sequence: u64) -> bool
    ensures { result ≡ spent width most held sequence }
{
    is_behind(most, sequence) || is_repeated(held, sequence)
}

// What refuses the sequence, by the same two words.
fn refusal_by(most: u64, held: u64, sequence: u64) -> Result<(), Refusal>
    ensures { result ≡ verdict (refusal_by width most held sequence) }
{
    if sequence > LAST {
        return Err(Refusal(Why::SequenceLate));
    }
    if is_spent(most, held, sequence) {
        return Err(Refusal(Why::Repeated));
    }
    Ok(())
}

impl ReplayProtection {
    pub fn new() -> ReplayProtection
        ensures { result ≡ protection (fresh width) }
    {
        ReplayProtection {
            most_recent_sequence: 0,
            received_packet: [EMPTY; NETCODE_REPLAY_BUFFER_SIZE],
        }
    }

    pub fn already_received(self, sequence: u64) -> bool
        ensures { result ≡ refuses width (window_of self) sequence }
    {
        let held = self.received_packet[index(sequence)];
        is_spent(self.most_recent_sequence, held, sequence)
    }

    // What refuses the sequence: 5 from 2^64 - 256 on, 6 where the window does, nothing where it accepts.
    pub fn refusal(self, sequence: u64) -> Result<(), Refusal>
        ensures { result ≡ verdict (refusal width (window_of self) sequence) }
    {
        let held = self.received_packet[index(sequence)];
        refusal_by(self.most_recent_sequence, held, sequence)
    }

    // The window with the sequence accepted; as it was where the sequence would be refused.
    pub fn advance_sequence(mut self, sequence: u64) -> ReplayProtection
        ensures { result ≡ protection (arrive width (window_of self) sequence) }
    {
        let place = index(sequence);
        let held = self.received_packet[place];
        if refusal_by(self.most_recent_sequence, held, sequence).is_err() {
            return self;
        }
        self.most_recent_sequence = self.most_recent_sequence.max(sequence);
        self.received_packet[place] = sequence;
        self
    }

    // `advance_sequence` where the window lies, as the one that is handed on by value costs copies of all of it: two words are read and written.
    pub fn advance_in_place(&mut self, sequence: u64)
        ensures { self.new ≡ protection (arrive width (window_of self.old) sequence) }
    {
        let at = index(sequence);
        let most = self.most_recent_sequence;
        let held = self.received_packet[at];
        if refusal_by(most, held, sequence).is_err() {
            return;
        }
        self.most_recent_sequence = most.max(sequence);
        self.received_packet[at] = sequence;
    }
}
