// The program `colour`: reads a stream of pixels from standard input, and writes it to standard output, coloured by a curve from a file. The
// arguments are read in `filter_words`, the stream is coloured in `stream_colouring`.
#![tactic(auto)]

use filter_words::Job;
use progress::{Program, Progress};
use reading::Filled;
use std::io::IsTerminal;
use std::process::ExitCode;
use std::{env, fs};

// One byte more than a curve has: so many bytes of a file tell its curve from a longer one.
const ROOM: usize = curve_bytes::CURVE_LENGTH + 1;

const PROGRAM: Program = Program {
    name: "colour",
    usage: "usage: colour CURVE [METHOD] [off | mix K | hold V] <in.rgb >out.rgb",
};

// Colours the stream by the curve.
fn run(rt: &HostRuntime, curve: &[u8], job: Job) -> ExitCode {
    let mut stream = Progress::new(rt.stdin(), rt, rt.stderr().is_terminal());
    let done = stream_colouring::colour_stream(
        curve,
        job.method,
        job.setting,
        &mut stream,
        &mut rt.stdout(),
    );
    let amount = stream.end();
    match done {
        Ok(()) => ExitCode::SUCCESS,
        Err(failure) => PROGRAM.failed(rt, failure, amount),
    }
}

// Colours by the curve in the file of this name.
fn run_by_file(rt: &HostRuntime, name: &str, job: Job) -> ExitCode {
    let mut curve = [0u8; ROOM];
    let read = match fs::open(rt, name) {
        Ok(mut file) => reading::fill(&mut file, &mut curve),
        Err(_) => Filled {
            size: 0,
            failed: true,
        },
    };
    if read.failed {
        let _ = eprintln!(rt; "colour: the curve {name:?} cannot be read");
        return ExitCode::FAILURE;
    }
    run(rt, &curve[..read.size], job)
}

// What the arguments name: the curve's file, and then how to colour.
fn main(rt: HostRuntime) -> ExitCode {
    let Ok(mut arguments) = env::args(&rt) else {
        return PROGRAM.misused(&rt, "the arguments cannot be read");
    };
    // the program's name
    arguments.next();
    let Some(name) = arguments.next() else {
        return PROGRAM.misused(&rt, "no curve is named");
    };
    if name.as_str() == "--help" {
        return PROGRAM.help(&rt);
    }
    let Ok(line) = filter_words::line_of(arguments, rt.alloc()) else {
        return PROGRAM.misused(&rt, "no memory for the arguments");
    };
    match filter_words::read_job(line.as_bytes()) {
        Ok(job) => run_by_file(&rt, name.as_str(), job),
        Err(fault) => PROGRAM.misused(&rt, answers::reason(fault)),
    }
}
