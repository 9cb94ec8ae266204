// What was said is held to what the line expects. A text that is the same is then changed in one character, which must be noticed: a
// comparison that can't fail would show nothing.
use crate::kinds::Line;
use crate::report::Counts;
use crate::say::Said;
use std::io;

// How many characters the two have in common at their start.
fn first_difference(a: &[u8], b: &[u8]) -> usize {
    let mut n: usize = 0;
    for (c, d) in a.iter().zip(b) {
        if c != d {
            return n;
        }
        n = n.wrapping_add(1);
    }
    n
}

// The first value that differs, counted from 1.
fn tell(
    rt: HostRuntime,
    letter: &[u8],
    right: &[u8],
    said: &[u8],
    counts: &Counts,
) -> io::Result<()> {
    let same = first_difference(right, said);
    let which = tokens::spaces(bodies::field(said, 0, 0, same));
    print!(rt; "line {}, ", counts.lines())?;
    rt.write_all(letter)?;
    print!(rt; ": value {which} is ")?;
    rt.write_all(tokens::token(said, which))?;
    rt.write_all(b", the Rust's ")?;
    rt.write_all(tokens::token(right, which))?;
    rt.write_all(b"\n")
}

// A line that is no call.
pub(crate) fn pass(rt: HostRuntime, counts: &Counts) -> io::Result<()> {
    if counts.are_few() {
        println!(rt; "line {} is no call", counts.lines())?;
    }
    Ok(())
}

// A text as the Rust's, which is changed, and is then another.
fn count_same(right: &[u8], said: &mut Said, counts: &mut Counts) {
    counts.count_same();
    said.spoil(counts.lines());
    if right != said.text() {
        counts.count_noticed();
    }
}

// A line that makes no call is not to say what comes of it.
fn settle(rt: HostRuntime, right: &[u8], counts: &mut Counts) -> io::Result<()> {
    if right.is_empty() {
        counts.count_same();
        return Ok(());
    }
    pass(rt, counts)
}

// Said is what came out. What differs is told of the first lines alone.
pub(crate) fn compare(
    rt: HostRuntime,
    line: Line,
    left: &[u8],
    right: &[u8],
    said: &mut Said,
    counts: &mut Counts,
) -> io::Result<()> {
    if line.is_setting() {
        return settle(rt, right, counts);
    }
    counts.count_answer(line, said.text());
    if right == said.text() {
        count_same(right, said, counts);
        return Ok(());
    }
    if counts.are_few() {
        return tell(rt, tokens::token(left, 0), right, said.text(), counts);
    }
    Ok(())
}
