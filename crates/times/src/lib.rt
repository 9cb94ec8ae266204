// Times as seconds and nanoseconds, of any two words: a time counts as its whole nanoseconds, and every sum, comparison and
// difference is of those, exact, though they pass 64 bits.
#![tactic(auto)]

ghost use Rattle.std.specs.Prelude.{◌≡◌, ◌+◌, ◌*◌, ◌-◌, ◌<◌, ◌≤◌, ltb};
ghost use Rattle.times.specs.Times.{whole, zero, added, before, past, due, since, settled};

use refusal::{Refusal, Why};

// Nanoseconds in a second.
const SECOND: u64 = 1_000_000_000;

// More seconds than a word of nanoseconds, a u32 of seconds and a carry make together: a lead of so much decides by itself.
const FAR: u64 = 1_099_511_627_776;

const MOST: u64 = 0xffff_ffff_ffff_ffff;

// The send interval, 250 ms, less the nanosecond that turns "at most" into "below".
const SHORT_OF_SEND_RATE: u32 = 249_999_999;

#[derive(Clone, Copy)]
pub struct Time {
    pub secs: u64,
    pub nanos: u64,
}

// The seconds up + give - take, as many as a word holds, and what is over as nanoseconds with the rest.
fn settle(up: u64, give: u64, take: u64, rest: u64) -> Time
    requires { (take ≤ up + give) × (rest + (up + give - take - 18446744073709551615) * 1000000000 < 18446744073709551616) }
    ensures { result ≡ settled (up + give - take) rest }
{
    if take >= give {
        return Time {
            secs: up - (take - give),
            nanos: rest,
        };
    }
    let extra = give - take;
    let fits = extra.min(MOST - up);
    Time {
        secs: up + fits,
        nanos: rest + (extra - fits) * SECOND,
    }
}

impl Time {
    pub fn zero() -> Time
        ensures { result ≡ zero }
    {
        Time { secs: 0, nanos: 0 }
    }

    // The clock moved on by a step, its nanoseconds below a second; no clock passes its range.
    pub fn add(self, step: Time) -> Result<Time, Refusal>
        ensures { result ≡ added self step }
    {
        let nanos = self.nanos % SECOND + step.nanos % SECOND;
        let carry = self.nanos / SECOND + step.nanos / SECOND + nanos / SECOND;
        if step.secs > MOST - self.secs {
            return Err(Refusal(Why::ClockOver));
        }
        let secs = self.secs + step.secs;
        if carry > MOST - secs {
            return Err(Refusal(Why::ClockOver));
        }
        Ok(Time {
            secs: secs + carry,
            nanos: nanos % SECOND,
        })
    }

    // self + secs + nanos < now. Only the difference of the two seconds counts, and from FAR on only its sign.
    fn passes(self, secs: u32, nanos: u32, now: Time) -> bool
        requires { nanos < 1000000000 }
        ensures { result ≡ ltb (whole self + secs * 1000000000 + nanos) (whole «now») }
    {
        let rest = self.nanos % SECOND + nanos as u64;
        let late = self.secs.saturating_sub(now.secs).min(FAR)
            + self.nanos / SECOND
            + secs as u64
            + rest / SECOND;
        let early = now.secs.saturating_sub(self.secs).min(FAR) + now.nanos / SECOND;
        if late != early {
            return late < early;
        }
        rest % SECOND < now.nanos % SECOND
    }

    // self < other, by whole nanoseconds and so by no derived order. Of two times as a clock shows them the seconds decide, and then the nanoseconds.
    pub fn is_before(self, other: Time) -> bool
        ensures { result ≡ before self other }
    {
        if self.nanos >= SECOND {
            return self.passes(0, 0, other);
        }
        if other.nanos >= SECOND {
            return self.passes(0, 0, other);
        }
        if self.secs != other.secs {
            return self.secs < other.secs;
        }
        self.nanos < other.nanos
    }

    // self + secs < now: a timeout has passed.
    pub fn is_past(self, secs: u32, now: Time) -> bool
        ensures { result ≡ past self secs «now» }
    {
        self.passes(secs, 0, now)
    }

    // self + 250 ms <= now: the next packet is due.
    pub fn is_due(self, now: Time) -> bool
        ensures { result ≡ due self «now» }
    {
        self.passes(0, SHORT_OF_SEND_RATE, now)
    }

    // How long ago then was; zero where it is later.
    pub fn since(self, then: Time) -> Time
        ensures { result ≡ since self then }
    {
        if self.is_before(then) {
            return Time::zero();
        }
        let nanos = self.nanos % SECOND;
        let less = then.nanos % SECOND;
        // The second that a difference of nanoseconds borrows.
        let one = u64::from(nanos < less);
        let up = self.secs.saturating_sub(then.secs);
        let take = then.secs.saturating_sub(self.secs) + then.nanos / SECOND + one;
        settle(up, self.nanos / SECOND, take, nanos + one * SECOND - less)
    }
}
