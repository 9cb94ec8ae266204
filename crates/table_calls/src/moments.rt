// Times, each as its seconds and nanoseconds, any two words.
ghost use Rattle.std.specs.Prelude.{◌≡◌};
ghost use Rattle.times.specs.Times.{time, before, past, due};
ghost use Rattle.table_calls.specs.Calls.{told, time_add, since_words};

use times::Time;

// 0, and the clock moved on in out; 20 where it would pass its range.
pub fn pump_time_add(
    secs: u64,
    nanos: u64,
    step_secs: u64,
    step_nanos: u64,
    out: &mut [u64; 2],
) -> u8
    ensures { told result out.new ≡ time_add (time secs nanos) (time step_secs step_nanos) out.old }
{
    let clock = Time { secs, nanos };
    let step = Time {
        secs: step_secs,
        nanos: step_nanos,
    };
    match clock.add(step) {
        Ok(t) => {
            *out = [t.secs, t.nanos];
            0
        }
        Err(refusal) => refusal.number(),
    }
}

// a < b
pub fn pump_time_before(a_secs: u64, a_nanos: u64, b_secs: u64, b_nanos: u64) -> bool
    ensures { result ≡ before (time a_secs a_nanos) (time b_secs b_nanos) }
{
    let a = Time {
        secs: a_secs,
        nanos: a_nanos,
    };
    let b = Time {
        secs: b_secs,
        nanos: b_nanos,
    };
    a.is_before(b)
}

// a + timeout < now
pub fn pump_time_past(secs: u64, nanos: u64, timeout: u32, now_secs: u64, now_nanos: u64) -> bool
    ensures { result ≡ past (time secs nanos) timeout (time now_secs now_nanos) }
{
    let a = Time { secs, nanos };
    let b = Time {
        secs: now_secs,
        nanos: now_nanos,
    };
    a.is_past(timeout, b)
}

// a + 250 ms <= now
pub fn pump_time_due(secs: u64, nanos: u64, now_secs: u64, now_nanos: u64) -> bool
    ensures { result ≡ due (time secs nanos) (time now_secs now_nanos) }
{
    let a = Time { secs, nanos };
    let b = Time {
        secs: now_secs,
        nanos: now_nanos,
    };
    a.is_due(b)
}

// How long ago a time was, in out.
pub fn pump_time_since(now_secs: u64, now_nanos: u64, secs: u64, nanos: u64, out: &mut [u64; 2])
    ensures { out.new ≡ since_words (time now_secs now_nanos) (time secs nanos) }
{
    let b = Time {
        secs: now_secs,
        nanos: now_nanos,
    };
    let gone = b.since(Time { secs, nanos });
    *out = [gone.secs, gone.nanos];
}
