// Times, each as its seconds and nanoseconds, any two words.
ghost use Rattle.std.specs.Prelude.{◌≡◌};
ghost use Rattle.times.specs.Times.{time, before, past, due};
ghost use Rattle.table_calls.specs.Calls.{told, time_add, since_words};

// 0, and the clock moved on in out; 20 where it would pass its range.
#[unsafe(no_mangle)]
pub extern "C" fn pump_time_add(
    secs: u64,
    nanos: u64,
    step_secs: u64,
    step_nanos: u64,
    out: &mut [u64; 2],
) -> u8
    ensures { told result out.new ≡ time_add (time secs nanos) (time step_secs step_nanos) out.old }
{
    table_calls::pump_time_add(secs, nanos, step_secs, step_nanos, out)
}

// a < b
#[unsafe(no_mangle)]
pub extern "C" fn pump_time_before(a_secs: u64, a_nanos: u64, b_secs: u64, b_nanos: u64) -> bool
    ensures { result ≡ before (time a_secs a_nanos) (time b_secs b_nanos) }
{
    table_calls::pump_time_before(a_secs, a_nanos, b_secs, b_nanos)
}

// a + timeout < now
#[unsafe(no_mangle)]
pub extern "C" fn pump_time_past(
    secs: u64,
    nanos: u64,
    timeout: u32,
    now_secs: u64,
    now_nanos: u64,
) -> bool
    ensures { result ≡ past (time secs nanos) timeout (time now_secs now_nanos) }
{
    table_calls::pump_time_past(secs, nanos, timeout, now_secs, now_nanos)
}

// a + 250 ms <= now
#[unsafe(no_mangle)]
pub extern "C" fn pump_time_due(secs: u64, nanos: u64, now_secs: u64, now_nanos: u64) -> bool
    ensures { result ≡ due (time secs nanos) (time now_secs now_nanos) }
{
    table_calls::pump_time_due(secs, nanos, now_secs, now_nanos)
}

// How long ago a time was, in out.
#[unsafe(no_mangle)]
pub extern "C" fn pump_time_since(
    now_secs: u64,
    now_nanos: u64,
    secs: u64,
    nanos: u64,
    out: &mut [u64; 2],
)
    ensures { out.new ≡ since_words (time now_secs now_nanos) (time secs nanos) }
{
    table_calls::pump_time_since(now_secs, now_nanos, secs, nanos, out)
}
