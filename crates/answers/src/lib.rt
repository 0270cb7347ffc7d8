// The text of what the program `replay` answers.
#![tactic(auto)]

ghost use Rattle.std.specs.Prelude.{◌≡◌, ◌+◌, ◌≤◌, length};
ghost use Rattle.text.specs.Text.{Wrote};
ghost use Rattle.answers.specs.Answers.{byte_limit, text_limit, number_text, strip_text, bytes_text, reason_text, fault_text, WritesAnswer};

use text::Writer;
use words::Fault;

// The most bytes that an answer has in digits: a line has two digits for each.
pub const BYTE_LIMIT: usize = script::LINE_LIMIT / 2;

// An output of so many bytes has room for every answer. An array's type in its place would ask more of callers, and a part of it handed
// back in place of a length would leave unsaid what the whole output then holds. A writer in its place would have each caller make one and
// read the length off it, and each clause on the room speak of its place too.
pub const TEXT_LIMIT: usize = script::LINE_LIMIT + 64;

// Writes a number and a line feed at the start of the output, and hands back how many bytes that are.
#[tactic(auto, using(crate::proofs::Sizes::sizes, text::proofs::Runs::wrote_more, crate::proofs::Sizes::answered))]
pub fn write_number(number: u32, output: &mut [u8]) -> usize
    requires { text_limit ≤ length output.old }
    ensures { WritesAnswer (number_text number) output.old result output.new }
{
    let mut writer = Writer::new(output);
    writer.number(u64::from(number));
    writer.text(b"\n");
    writer.end
}

// Writes bytes as a script has them: in hexadecimal digits, or - for none.
#[tactic(auto, using(crate::proofs::Sizes::strip_some, hexadecimal::proofs::Hexadecimal::length_encoded, std::proofs::lemmas::Bool::Decides::nat_tests))]
fn write_strip(bytes: &[u8], writer: &mut Writer)
    requires { writer.old.end + length (strip_text bytes.now) ≤ length writer.old.run.now }
    ensures { Wrote (strip_text bytes.now) writer.old writer.new }
{
    if bytes.is_empty() {
        return writer.text(b"-");
    }
    hexadecimal::encode(bytes, writer);
}

// Writes a number, bytes and a line feed at the start of the output, and hands back how many bytes that are.
#[tactic(auto, using(crate::proofs::Sizes::sizes))]
pub fn write_bytes(number: u32, bytes: &[u8], output: &mut [u8]) -> usize
    requires bytes_len_bound { length bytes.now ≤ byte_limit }
    requires text_limit_in_bounds { text_limit ≤ length output.old }
    ensures { WritesAnswer (bytes_text number bytes.now) output.old result output.new }
{
    let mut writer = Writer::new(output);
    writer.number(u64::from(number));
    writer.text(b" ");
    write_strip(bytes, &mut writer);
    writer.text(b"\n");
    writer.end
}

// Why a line is no call. No `Display`: of `write!` it cannot be shown that it does not fail.
pub fn reason(fault: Fault) -> &'static str
    ensures text { result.now ≡ reason_text fault }
    ensures short { length result.now ≤ 52 }
{
    match fault {
        Fault::TooLong => "longer than 65536 bytes",
        Fault::NoSuchCall => "no such call",
        Fault::TooFewWords => "too few words",
        Fault::TooManyWords => "too many words",
        Fault::NotANumber => "not a number from 0 to 4294967295",
        Fault::NoSuchShot => "no such shot",
        Fault::NotPairs => "not pairs of hexadecimal digits",
        Fault::NotAPixel => "not six hexadecimal digits",
        Fault::NoSuchDial => "no such dial command: off, mix or hold",
        Fault::NotAFloat => "not a float's bits: eight hexadecimal digits, or nan",
    }
}

// Writes the answer to a line that is no call at the start of the output, and hands back how many bytes it has.
#[tactic(auto, using(crate::proofs::Sizes::sizes))]
pub fn write_fault(fault: Fault, line: u64, output: &mut [u8]) -> usize
    requires { text_limit ≤ length output.old }
    ensures { WritesAnswer (fault_text fault line) output.old result output.new }
{
    let mut writer = Writer::new(output);
    writer.text(b"line ");
    writer.number(line);
    writer.text(b" is no call: ");
    writer.text(reason(fault).as_bytes());
    writer.text(b"\n");
    writer.end
}
