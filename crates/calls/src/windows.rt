// The window, lent as its 257 words: the highest, then the places. By value, as document 01 has it, and in place.
ghost use Rattle.std.specs.Prelude.{◌≡◌};
ghost use Rattle.replay_protection.specs.Replay.{fresh, refuses, refusal, arrive};
ghost use Rattle.replay_protection.specs.Stored.{window_at, put_window};
ghost use Rattle.replay_protection.specs.Ours.{width};

use replay_protection::ReplayProtection;

pub fn pump_new_window(window: &mut [u64; 257])
    ensures { window.new ≡ put_window window.old 0 (fresh width) }
{
    replay_protection::store_window(window, 0, ReplayProtection::new());
}

pub fn pump_already_received(window: &[u64; 257], sequence: u64) -> bool
    ensures { result ≡ refuses width (window_at width window.now 0) sequence }
{
    replay_protection::load_window(window, 0).already_received(sequence)
}

pub fn pump_refusal(window: &[u64; 257], sequence: u64) -> u8
    ensures { result ≡ refusal width (window_at width window.now 0) sequence }
{
    refusal::number(replay_protection::load_window(window, 0).refusal(sequence))
}

pub fn pump_advance_sequence(window: &mut [u64; 257], sequence: u64)
    ensures { window.new ≡ put_window window.old 0 (arrive width (window_at width window.old 0) sequence) }
{
    let advanced = replay_protection::load_window(window, 0).advance_sequence(sequence);
    replay_protection::store_window(window, 0, advanced);
}

pub fn pump_refusal_at(window: &[u64; 257], sequence: u64) -> u8
    ensures { result ≡ refusal width (window_at width window.now 0) sequence }
{
    refusal::number(replay_protection::refusal_at(window, 0, sequence))
}

pub fn pump_advance_at(window: &mut [u64; 257], sequence: u64)
    ensures { window.new ≡ put_window window.old 0 (arrive width (window_at width window.old 0) sequence) }
{
    replay_protection::advance_at(window, 0, sequence);
}
