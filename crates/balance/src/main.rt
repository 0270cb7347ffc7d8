// The program `balance` (document 01, "Frames from a file"): reads an image from standard input and writes the answer to standard output.
// All that is decided is decided in `still`.
#![tactic(auto)]

fn main(rt: HostRuntime) {
    let mut file = still::input_buffer();
    let mut output = still::output_buffer();
    let read = reading::read_full(&mut rt.stdin(), &mut file);
    let size = still::balance_file(&file[..read], &mut output);
    if rt.write_all(&output[..size]).is_err() {
        // the exit status stays 0, so this is all that tells
        let _ = eprintln!(rt; "balance: the output could not be written");
    }
}
