// What was counted, and what is printed of it.
use crate::kinds::Line;
use crate::text;
use std::io;

const LETTERS: [&[u8]; 11] = [
    b"S", b"U", b"M", b"P", b"O", b"T", b"E", b"G", b"C", b"D", b"Q",
];

const CASES: [&[u8]; 7] = [
    b"refused",
    b"nothing",
    b"ask",
    b"packet_to_send",
    b"payload",
    b"connected",
    b"disconnected",
];

const NUMBERS: [&[u8]; 24] = [
    b"1", b"2", b"3", b"4", b"5", b"6", b"7", b"8", b"9", b"10", b"11", b"12", b"13", b"14", b"15",
    b"16", b"17", b"18", b"19", b"20", b"21", b"22", b"23", b"24",
];

// Calls of each letter; lines that make none; lines that are neither; answers of each case; of each refusal's number; lines as the Rust's;
// with a change that was noticed.
#[derive(Drop)]
pub(crate) struct Counts {
    calls: [u64; 11],
    setting: u64,
    other: u64,
    cases: [u64; 7],
    refusals: [u64; 24],
    same: u64,
    noticed: u64,
}

// ---- counting

fn add(count: &mut u64) {
    *count = count.wrapping_add(1);
}

// The place of a call among its counts; None for a line that makes none.
fn place_of(line: Line) -> Option<usize> {
    match line {
        Line::SetUp => Some(0),
        Line::Update => Some(1),
        Line::SetMaxClients => Some(2),
        Line::Packet => Some(3),
        Line::AnswerOpen => Some(4),
        Line::AnswerToken => Some(5),
        Line::AnswerSeal => Some(6),
        Line::Payload => Some(7),
        Line::UpdateClient => Some(8),
        Line::Disconnect => Some(9),
        Line::Query => Some(10),
        Line::Words | Line::Entry | Line::AllEntries | Line::Lend => None,
    }
}

fn sum(counts: &[u64]) -> u64 {
    let mut sum: u64 = 0;
    for count in counts {
        sum = sum.wrapping_add(*count);
    }
    sum
}

// The count of this place, if there is one, is one more.
fn add_at(counts: &mut [u64], at: usize) {
    if let Some(count) = counts.get_mut(at) {
        add(count);
    }
}

impl Counts {
    pub(crate) fn new() -> Counts {
        Counts {
            calls: [0; 11],
            setting: 0,
            other: 0,
            cases: [0; 7],
            refusals: [0; 24],
            same: 0,
            noticed: 0,
        }
    }

    pub(crate) fn count_line(&mut self, line: Line) {
        match place_of(line) {
            Some(at) => add_at(&mut self.calls, at),
            None => add(&mut self.setting),
        }
    }

    pub(crate) fn count_other(&mut self) {
        add(&mut self.other);
    }

    fn count_number(&mut self, number: u64) {
        if number != 0 {
            add_at(&mut self.refusals, (number - 1) as usize);
        }
    }

    // What was said begins with the case and the number; a query has neither, and set-up a number alone.
    pub(crate) fn count_answer(&mut self, line: Line, said: &[u8]) {
        match line {
            Line::Query => {}
            Line::SetUp => self.count_number(text::number(said, 1)),
            _ => {
                add_at(&mut self.cases, text::number(said, 1) as usize);
                self.count_number(text::number(said, 2));
            }
        }
    }

    pub(crate) fn count_same(&mut self) {
        add(&mut self.same);
    }

    pub(crate) fn count_noticed(&mut self) {
        add(&mut self.noticed);
    }

    // All lines: of each letter, and of none.
    pub(crate) fn lines(&self) -> u64 {
        sum(&self.calls)
            .wrapping_add(self.setting)
            .wrapping_add(self.other)
    }

    // Whether the lines that differ so far are no more than five.
    pub(crate) fn are_few(&self) -> bool {
        self.lines().wrapping_sub(self.same) <= 5
    }

    fn are_all_same(&self) -> bool {
        let total = self.lines();
        total != 0 && self.same == total && self.noticed.wrapping_add(self.setting) == total
    }
}

// ---- printing

// A name and a count for each.
fn row(rt: HostRuntime, title: &[u8], names: &[&[u8]], counts: &[u64]) -> io::Result<()> {
    rt.write_all(title)?;
    for (name, count) in names.iter().zip(counts) {
        rt.write_all(b" ")?;
        rt.write_all(name)?;
        print!(rt; "={count}")?;
    }
    rt.write_all(b"\n")
}

pub(crate) fn table(rt: HostRuntime, counts: &Counts) -> io::Result<()> {
    row(rt, b"calls:", &LETTERS, &counts.calls)?;
    row(rt, b"answers:", &CASES, &counts.cases)?;
    row(rt, b"refusals:", &NUMBERS, &counts.refusals)?;
    println!(rt;
        "{} lines, {} as the Rust's, {} noticed with a character changed, {} that alter or lend, {} of no call",
        counts.lines(),
        counts.same,
        counts.noticed,
        counts.setting,
        counts.other
    )?;
    if counts.are_all_same() {
        println!(rt; "all as the Rust's")
    } else {
        println!(rt; "NOT all as the Rust's")
    }
}
