// The program `rounds`: colours one strip under one command of the dial, again and again. It is there for bench/, which times a shot's
// colouring by the difference of two runs: the library for C has no dial.
//
// Standard input is a head of eight bytes, and then the strip, of at most 131,072 pixels. The head is
//   - the dial: 0 off, 1 mix, 2 hold;
//   - the amount of mix in 256ths, or the held value: two bytes, the lower first;
//   - the method;
//   - how many times more the strip is coloured, after the first: four bytes, the lowest first.
// The strip is a shot of its own: measured, fixed by choice 1, and coloured. Standard output gets the last colouring's number, a line feed,
// and the destination, whose bytes were 0 before. What a call refuses is seen by that number: a strip that is not measured leaves the shot
// without a pixel, and so not fixed (6). A wrong head and a strip that is too long are told on standard error, and nothing else is written.
#![tactic(auto)]

ghost use Rattle.std.specs.Prelude.{◌≡◌, List, ℕ, ◌<◌, ◌≤◌, length, MatchResult};
ghost use Rattle.tables.specs.Table.{at};
ghost use Rattle.dial.specs.Dial.{IsExactly};
ghost use Rattle.shot.specs.Shot.{coloured};
ghost use Rattle.rounds.specs.Inner.{IsHead, own_shot, ColouredByHead};

use dial::Dial;
use shot::{Answer, Shot};
use std::io::Read;
use std::{fmt, io};

// The bytes of the longest strip.
const STRIP_LIMIT: usize = 393216;

// Why nothing is coloured, or not all is written.
#[derive(Clone, Copy, Debug, PartialEq, Eq)]
enum Failure {
    NoHead,
    StripTooLong,
    NotWritten,
}

impl fmt::Display for Failure {
    fn fmt<W: fmt::Write>(&self, f: &mut fmt::Formatter<W>) -> fmt::Result {
        match self {
            Failure::NoHead => write!(f, "this is no head"),
            Failure::StripTooLong => write!(f, "the strip is too long"),
            Failure::NotWritten => write!(f, "the output could not be written"),
        }
    }
}

// k / 256. Neither the cast nor the division rounds.
#[tactic(auto, using(crate::proofs::Floats::part_exactly))]
fn amount_of(k: u16) -> f32
    ensures { IsExactly result k 256 }
{
    f32::from(k) / 256.0
}

// v as a float, which does not round either.
#[tactic(auto, using(crate::proofs::Floats::whole_exactly))]
fn held_of(v: u16) -> f32
    ensures { IsExactly result v 1 }
{
    f32::from(v)
}

// What a head asks for: the command of the dial, the method, and how many times more the strip is coloured.
#[derive(Clone, Copy)]
struct Head {
    dial: Dial,
    method: u32,
    more: u32,
}

impl TryFrom<[u8; 8]> for Head {
    type Error = Failure;

    ghost try_from_gives = { λ bytes read. MatchResult read (IsHead bytes) (λ _. 2 < at bytes 0) };

    fn try_from(bytes: [u8; 8]) -> Result<Head, Failure> {
        let [kind, low, high, method, a, b, c, d] = bytes;
        let number = u16::from_le_bytes([low, high]);
        let dial = match kind {
            0 => Dial::Off,
            1 => Dial::Mix(amount_of(number)),
            2 => Dial::Hold(held_of(number)),
            _ => return Err(Failure::NoHead),
        };
        Ok(Head {
            dial,
            method: u32::from(method),
            more: u32::from_le_bytes([a, b, c, d]),
        })
    }
}

// The strip as a shot of its own, fixed by choice 1.
fn own_shot(strip: &[u8]) -> Shot
    ensures { result ≡ own_shot strip.now }
{
    Shot::open().measure(strip).shot.fix(1).shot
}

// Colours the strip by its own shot, as the head asks for, and then so many times more. Each time writes the same bytes, so what it leaves
// is what one colouring leaves, whatever bytes the head was read from.
fn colour_by_head(head: Head, strip: &[u8], destination: &mut [u8]) -> Answer
    ensures { (bytes : List ℕ) → IsHead bytes head → ColouredByHead bytes strip.now destination.old (record { answer = result; bytes = destination.new }) }
{
    let mut answer = own_shot(strip).colour(head.method, head.dial, strip, destination);
    for _ in 0..head.more {
        let same = answer.shot;
        answer = same.colour(head.method, head.dial, strip, destination);
    }
    answer
}

// The number on a line, and then the bytes. (By `println!`, which writes the whole line at once: `writeln!` would write the line feed by
// itself.)
fn write_answer(out: &impl Print, number: u32, bytes: &[u8]) -> io::Result<()> {
    println!(out; "{number}")?;
    out.write_all(bytes)
}

// Room for a strip, since nothing allocates. Its contract gives only the length, so that no proof has so many zeros to look at.
fn strip_buffer() -> [u8; STRIP_LIMIT]
    ensures { 393216 ≡ length result }
{
    [0; STRIP_LIMIT]
}

// Whether the input has ended.
fn at_end(reader: &mut impl Read) -> bool {
    reading::read_full(reader, &mut [0]) == 0
}

// Colours the strip that the input brings, and writes what comes of it.
fn run(reader: &mut impl Read, out: &impl Print) -> Result<(), Failure> {
    let mut head = [0u8; 8];
    // both before the first return: a buffer that is made after one is zeroed twice
    let mut strip = strip_buffer();
    let mut destination = strip_buffer();
    if reading::read_full(reader, &mut head) < head.len() {
        return Err(Failure::NoHead);
    }
    let head = Head::try_from(head)?;
    let size = reading::read_full(reader, &mut strip);
    if !at_end(reader) {
        return Err(Failure::StripTooLong);
    }
    let answer = colour_by_head(head, &strip[..size], &mut destination[..size]);
    write_answer(out, answer.number, &destination[..size]).map_err(|_| Failure::NotWritten)
}

// The exit status stays 0, so the program says what went wrong.
fn main(rt: HostRuntime) {
    if let Err(failure) = run(&mut rt.stdin(), &rt) {
        let _ = eprintln!(rt; "rounds: {failure}");
    }
}
