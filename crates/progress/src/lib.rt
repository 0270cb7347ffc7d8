// How far a filter is: the bytes that its stream has brought, told once a second where somebody looks; and how it ends.
#![tactic(auto)]

ghost use Rattle.std.specs.Prelude.{◌≡◌, ◌≤◌, ◌+◌, ◌%◌, ◌^◌, IfOk};
ghost use Rattle.std.specs.Io.{ReadsAtMost};
ghost use Rattle.std.specs.Io.KnownBytes.{ReadConsumes};
ghost use Rattle.std.specs.Process.{exit_status};

use pieces::Failure;
use std::io::{Eprint, Print, Read};
use std::process::ExitCode;
use std::rt::Clock;
use std::time::Instant;
use std::{fmt, io};

// Bytes of a stream, as pixels and what is left over.
#[derive(Clone, Copy)]
pub struct Amount {
    pub bytes: u64,
}

impl fmt::Display for Amount {
    fn fmt<W: fmt::Write>(&self, f: &mut fmt::Formatter<W>) -> fmt::Result {
        let pixels = self.bytes / 3;
        let over = self.bytes % 3;
        if over == 0 {
            return write!(f, "{pixels} pixels were read");
        }
        write!(f, "{pixels} pixels and {over} of 3 bytes were read")
    }
}

// A reader that counts the bytes it brings. Where it is to tell, it does so on standard error, over the line that it wrote before.
#[derive(Drop)]
pub struct Progress<'a, R, S> {
    reader: R,
    system: &'a S,
    amount: Amount,
    // when it told last; none where it is not to tell
    told: Option<Instant>,
    // whether a line stands there
    wrote: bool,
}

impl<'a, R: Read, S: Clock + Eprint> Progress<'a, R, S> {
    // Tells where `tells` is set and the system has a clock.
    pub fn new(reader: R, system: &'a S, tells: bool) -> Progress<'a, R, S>
        ensures reader { result.reader ≡ reader }
        ensures none_brought { result.amount.bytes ≡ 0 }
    {
        let told = if tells {
            Instant::now(system).ok()
        } else {
            None
        };
        Progress {
            reader,
            system,
            amount: Amount { bytes: 0 },
            told,
            wrote: false,
        }
    }

    // Ends the line that it wrote, if it wrote any, and hands back what was brought.
    pub fn end(&self) -> Amount
        ensures { result ≡ self.now.amount }
    {
        if self.wrote {
            let _ = eprintln!(self.system;);
        }
        self.amount
    }

    // Tells, where it is time.
    fn tell(&mut self) -> io::Result<()>
        ensures reader { self.new.reader ≡ self.old.reader }
        ensures amount { self.new.amount ≡ self.old.amount }
    {
        let Some(told) = self.told else {
            return Ok(());
        };
        let now = Instant::now(self.system)?;
        if now.duration_since(told).as_secs() < 1 {
            return Ok(());
        }
        self.told = Some(now);
        self.wrote = true;
        let amount = self.amount;
        eprint!(self.system; "\r{amount}")
    }
}

impl<'a, R: Read, S: Clock + Eprint> Read for Progress<'a, R, S> {
    ghost remaining = { λ p. R.remaining p.reader };

    fn read(&mut self, buf: &mut [u8]) -> io::Result<usize>
        ensures bound { ReadsAtMost result buf.new }
        ensures bytes { ReadConsumes (R.remaining self.old.reader) (R.remaining self.new.reader) result buf.new }
        ensures counted { IfOk result (λ size. self.new.amount.bytes ≡ (self.old.amount.bytes + size) % 2 ^ 64) }
    {
        let size = self.reader.read(buf)?;
        // no stream has so many bytes that the number comes round
        self.amount.bytes = self.amount.bytes.wrapping_add(size as u64);
        // what cannot be told is no fault of the stream
        let _ = self.tell();
        Ok(size)
    }
}

// A program: its name, and how it is called.
#[derive(Clone, Copy)]
pub struct Program {
    pub name: &'static str,
    pub usage: &'static str,
}

impl Program {
    // Says how the program is called. The status is 0 where that could be written.
    pub fn help(&self, system: &impl Print) -> ExitCode
        ensures { exit_status result ≤ 1 }
    {
        match system.println(self.usage) {
            Ok(()) => ExitCode::SUCCESS,
            Err(_) => ExitCode::FAILURE,
        }
    }

    // Its arguments cannot be used.
    pub fn misused(&self, system: &impl Eprint, reason: &str) -> ExitCode
        ensures { exit_status result ≡ 2 }
    {
        let name = self.name;
        let usage = self.usage;
        let _ = eprintln!(system; "{name}: {reason}; {usage}");
        ExitCode::from(2)
    }

    // It stops before it has done its work. So much of the stream was read.
    pub fn failed(&self, system: &impl Eprint, failure: Failure, amount: Amount) -> ExitCode
        ensures { exit_status result ≡ 1 }
    {
        let name = self.name;
        let _ = match failure {
            Failure::Refused(_) => eprintln!(system; "{failure}\n{name}: {amount}"),
            _ => eprintln!(system; "{name}: {failure}; {amount}"),
        };
        ExitCode::FAILURE
    }
}
