// A line for each figure.
#![tactic(auto)]

ghost use Rattle.std.specs.Prelude.{◌≡◌, ◌≤◌, ◌<◌, eqb, IfOk};
ghost use Rattle.serialize.specs.Runs.{alike};
ghost use Rattle.print.specs.Verdict.{bit};

use std::io;
use std::io::{Print, Stdout};

const DIGITS: [u8; 16] = *b"0123456789ABCDEF";

// By a table: a format for each byte takes twice the time.
fn hex(to: Stdout, s: &[u8]) -> io::Result<()> {
    for b in s {
        let pair = [
            b' ',
            DIGITS[usize::from(*b / 16)],
            DIGITS[usize::from(*b % 16)],
        ];
        to.write_all(&pair)?;
    }
    Ok(())
}

// 1 with the word for it where a figure holds, 0 where not. The bound is for sums.
fn verdict(to: Stdout, holds: bool) -> io::Result<u32>
    ensures { IfOk result (λ r. (r ≡ bit holds) × (r ≤ 1)) }
{
    if holds {
        to.write_all(b"  holds\n")?;
        Ok(1)
    } else {
        to.write_all(b"  DOES NOT HOLD\n")?;
        Ok(0)
    }
}

// 1 where the bytes that came out are those that are wanted, 0 where not.
pub fn bytes(to: Stdout, name: &[u8], got: &[u8], want: &[u8]) -> io::Result<u32>
    ensures { IfOk result (λ r. (r ≡ bit (alike got.now want.now)) × (r ≤ 1)) }
{
    to.write_all(name)?;
    hex(to, got)?;
    verdict(to, got == want)
}

// The same for a number.
pub fn number(to: Stdout, name: &[u8], got: u64, want: u64) -> io::Result<u32>
    ensures { IfOk result (λ r. (r ≡ bit (eqb got want)) × (r ≤ 1)) }
{
    to.write_all(name)?;
    print!(to; " {got}")?;
    verdict(to, got == want)
}

// A number was wanted, and the answer is a refusal.
pub fn refused(to: Stdout, name: &[u8]) -> io::Result<u32>
    ensures { IfOk result (λ r. (r ≡ 0) × (r ≤ 1)) }
{
    to.write_all(name)?;
    to.write_all(b" refused")?;
    verdict(to, false)
}
