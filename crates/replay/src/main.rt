// The program `replay`: reads a script from standard input, makes its calls, and writes the answer of each to standard output. What a
// line is read as, and what it is answered, is decided in `script` and `interpreter`. Only a line at a time is held, so a script may
// have any length.
#![tactic(auto)]

ghost use Rattle.std.specs.Prelude.{◌≡◌, ◌+◌, ◌<◌, ◌≤◌, true, false, length, IfSome, IfOk, OnOk};
ghost use Rattle.script.specs.Script.{line_of, HasCall};
ghost use Rattle.interpreter.specs.Scripts.{replies_to, line_reply};

use interpreter::Shots;
use scanning::Class;
use script::Calls;
use std::fmt;
use std::io::{Read, Write};
use words::Fault;

// Room for a line and its line feed: what fills it without one is a line that is too long.
const ROOM: usize = script::LINE_LIMIT + 1;

// Why the program ends before its script does.
#[derive(Clone, Copy, Debug, PartialEq, Eq)]
enum Failure {
    Reading,
    Writing,
}

impl fmt::Display for Failure {
    fn fmt<W: fmt::Write>(&self, f: &mut fmt::Formatter<W>) -> fmt::Result {
        match self {
            Failure::Reading => write!(f, "the script could not be read"),
            Failure::Writing => write!(f, "the answers could not be written"),
        }
    }
}

// Whether a line ends at the byte.
fn ends_line(b: u8) -> bool {
    !scanning::in_class(Class::Line, b)
}

// Writes an answer.
fn write_answer(writer: &mut impl Write, answer: &[u8]) -> Result<(), Failure> {
    writer.write_all(answer).map_err(|_| Failure::Writing)
}

// Where the answers of a script go, and what it has come to.
#[derive(Drop)]
struct Replay<W> {
    writer: W,
    // the answer at hand
    output: [u8; answers::TEXT_LIMIT],
    shots: Shots,
    // how many lines have ended
    lines: u64,
    // whether the line at hand is too long, so that its bytes so far were thrown away (a flag: the rest of the line is held as any line
    // is, so an enum of the two states would carry nothing)
    overlong: bool,
}

impl<W: Write> Replay<W> {
    fn new(writer: W) -> Replay<W> {
        Replay {
            writer,
            output: [0; answers::TEXT_LIMIT],
            shots: Shots::new(),
            lines: 0,
            overlong: false,
        }
    }

    // Makes a line's calls, one after the other.
    #[tactic(auto, using(interpreter::proofs::Scripts::replies_more, interpreter::proofs::Scripts::replies_none))]
    fn make_calls(&mut self, calls: Calls, line: &[u8]) -> Result<(), Failure>
        requires { HasCall line.now calls.command }
        ensures { OnOk result (self.new.shots ≡ (replies_to calls.times line.now calls.command self.old.shots).shots) }
    {
        for _ in 0..calls.times {
            let size = self.shots.answer(calls.command, line, &mut self.output);
            write_answer(&mut self.writer, &self.output[..size])?;
        }
        Ok(())
    }

    // Answers that the line that ended last is no call.
    fn answer_fault(&mut self, fault: Fault) -> Result<(), Failure>
        ensures { self.new.shots ≡ self.old.shots }
    {
        let size = answers::write_fault(fault, self.lines, &mut self.output);
        write_answer(&mut self.writer, &self.output[..size])
    }

    // Answers a line; of one that is too long, the bytes at hand are its last.
    #[tactic(auto, using(script::proofs::Due::has_call))]
    fn answer_line(&mut self, line: &[u8]) -> Result<(), Failure>
        ensures overlong_stays { self.old.overlong ≡ true → self.new.shots ≡ self.old.shots }
        ensures line_answered { self.old.overlong ≡ false → OnOk result (self.new.shots ≡ (line_reply self.new.lines line.now (line_of line.now) self.old.shots).shots) }
    {
        // no script has so many lines that the number comes round
        self.lines = self.lines.wrapping_add(1);
        if self.overlong {
            self.overlong = false;
            return self.answer_fault(Fault::TooLong);
        }
        match script::read_line(line) {
            Ok(None) => Ok(()),
            Ok(Some(calls)) => self.make_calls(calls, line),
            Err(fault) => self.answer_fault(fault),
        }
    }

    // Answers the lines that end within the bytes at hand, and hands back the place after the last line feed.
    fn answer_lines(&mut self, bytes: &[u8]) -> Result<usize, Failure>
        ensures { IfOk result (λ start. start ≤ length bytes.now) }
    {
        let Some(last) = bytes.iter().rposition(|b| ends_line(*b)) else {
            return Ok(0);
        };
        for line in bytes[..last].split(|b| ends_line(*b)) {
            self.answer_line(line)?;
        }
        Ok(last + 1)
    }

    // The script has ended: answers what is left of it, a line without its line feed.
    fn finish(&mut self, rest: &[u8]) -> Result<(), Failure> {
        if rest.is_empty() && !self.overlong {
            return Ok(());
        }
        self.answer_line(rest)
    }

    // Keeps the line that has not ended, after the others have been answered, and hands back how many bytes of it are held.
    fn keep_rest(&mut self, buffer: &mut [u8], start: usize, end: usize) -> usize
        requires { (start ≤ end) × (end ≤ length buffer.old) × (0 < length buffer.old) }
        ensures shots_stay { self.new.shots ≡ self.old.shots }
        ensures held_in_bounds { result < length buffer.old }
    {
        buffer.copy_within(start..end, 0);
        let held = end - start;
        if held < buffer.len() {
            return held;
        }
        self.overlong = true;
        0
    }

    // Reads what there is to read, and answers the lines that it ends. Hands back how many bytes of the line at hand are then held, or
    // nothing where the script has ended.
    fn read_and_answer(
        &mut self,
        reader: &mut impl Read,
        // a slice: the length of an array would have to stand in the invariant of `run` as well. How many bytes of it are held is a number
        // beside it, since `read` takes the room that is left as a slice
        buffer: &mut [u8],
        held: usize,
    ) -> Result<Option<usize>, Failure>
        requires { held < length buffer.old }
        ensures { IfOk result (λ state. IfSome state (λ left. left < length buffer.old)) }
    {
        let more = reader
            .read(&mut buffer[held..])
            .map_err(|_| Failure::Reading)?;
        if more == 0 {
            self.finish(&buffer[..held])?;
            return Ok(None);
        }
        let end = held + more;
        let start = self.answer_lines(&buffer[..end])?;
        Ok(Some(self.keep_rest(buffer, start, end)))
    }
}

// Answers the script, a line at a time.
fn run(reader: &mut impl Read, writer: impl Write + Drop) -> Result<(), Failure> {
    let mut replay = Replay::new(writer);
    let mut buffer = [0u8; ROOM];
    let mut held = 0;
    // a proved loop has to end, and nothing says that a script does
    for _ in 0..u64::MAX {
        match replay.read_and_answer(reader, &mut buffer, held)? {
            Some(left) => held = left,
            None => return Ok(()),
        }
    }
    Ok(())
}

// Says on standard error why the program ends early: its exit status stays 0.
fn main(rt: HostRuntime) {
    if let Err(failure) = run(&mut rt.stdin(), rt.stdout()) {
        let _ = eprintln!(rt; "replay: {failure}");
    }
}
