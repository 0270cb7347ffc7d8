// The program `measure`: reads a stream of pixels from standard input, as one shot, and writes the shot's curve to standard output. The
// arguments are read in `filter_words`, the stream is measured in `stream_curve`.
#![tactic(auto)]

use pieces::Failure;
use progress::{Program, Progress};
use std::env;
use std::io::{IsTerminal, Write};
use std::process::ExitCode;

const PROGRAM: Program = Program {
    name: "measure",
    usage: "usage: measure [CHOICE] <in.rgb >shot.curve",
};

// Measures the stream and writes its curve.
fn run(rt: &HostRuntime, choice: u32) -> ExitCode {
    let mut stream = Progress::new(rt.stdin(), rt, rt.stderr().is_terminal());
    let measured = stream_curve::measure_stream(choice, &mut stream);
    let amount = stream.end();
    let curve = match measured {
        Ok(curve) => curve,
        Err(failure) => return PROGRAM.failed(rt, failure, amount),
    };
    if rt.stdout().write_all(&curve).is_err() {
        return PROGRAM.failed(rt, Failure::NotWritten, amount);
    }
    ExitCode::SUCCESS
}

// The curve choice that the arguments name.
fn main(rt: HostRuntime) -> ExitCode {
    let Ok(mut arguments) = env::args(&rt) else {
        return PROGRAM.misused(&rt, "the arguments cannot be read");
    };
    // the program's name
    arguments.next();
    let Ok(line) = filter_words::line_of(arguments, rt.alloc()) else {
        return PROGRAM.misused(&rt, "no memory for the arguments");
    };
    if line.as_str() == "--help " {
        return PROGRAM.help(&rt);
    }
    match filter_words::read_choice(line.as_bytes()) {
        Ok(choice) => run(&rt, choice),
        Err(fault) => PROGRAM.misused(&rt, answers::reason(fault)),
    }
}
