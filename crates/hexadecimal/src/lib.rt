// Bytes as hexadecimal digits, two to a byte, the high one first.
#![tactic(auto)]

ghost use Rattle.std.specs.Prelude.{◌≡◌, ◌+◌, ◌*◌, ◌/◌, ◌≤◌, ◌<◌, length};
ghost use Rattle.text.specs.Text.{Writes, Wrote};
ghost use Rattle.hexadecimal.specs.Hexadecimal.{digit_value, digit_code, is_pairs, decoded, encoded};

use scanning::Class;
use text::Writer;

// The number that a digit stands for; 0 for a byte that is none.
// `char::to_digit` would take a cast and a default more.
#[tactic(auto, unfolding(crate::specs::Hexadecimal::digit_value))]
fn digit_value(b: u8) -> u8
    ensures { (result ≡ digit_value b) × (result ≤ 15) }
{
    match b {
        b'0'..=b'9' => b - b'0',
        b'a'..=b'f' => b - b'a' + 10,
        b'A'..=b'F' => b - b'A' + 10,
        _ => 0,
    }
}

// The digit that stands for a number below sixteen; letters are small.
// `char::from_digit` would hand back an Option of a char: two conversions more.
fn digit_code(d: u8) -> u8
    requires { d < 16 }
    ensures { result ≡ digit_code d }
{
    if d < 10 {
        return b'0' + d;
    }
    b'a' + (d - 10)
}

// Whether a text is pairs of hexadecimal digits. (By where the run of digits ends, as in the definition.)
pub fn is_pairs(text: &[u8]) -> bool
    ensures { result ≡ is_pairs text.now }
{
    text.len() % 2 == 0 && scanning::run_end(Class::HexDigit, text, 0) == text.len()
}

// Writes the bytes that pairs of digits stand for at the start of the output, and hands back how many they are. (A part of the output in
// place of a length would leave unsaid what the rest holds.)
pub fn decode(digits: &[u8], output: &mut [u8]) -> usize
    requires { length digits.now / 2 ≤ length output.old }
    ensures { Writes 0 (decoded digits.now) output.old result output.new }
{
    let (pairs, _) = digits.as_chunks::<2>();
    // A zip with the output would leave the bytes written unknown to the proof.
    for (i, &[high, low]) in pairs.iter().enumerate() {
        output[i] = 16 * digit_value(high) + digit_value(low);
    }
    pairs.len()
}

// Writes bytes as digits.
#[tactic(auto, using(crate::proofs::Writing::encoded_start, crate::proofs::Writing::encoded_room, crate::proofs::Writing::encoded_more))]
pub fn encode(bytes: &[u8], writer: &mut Writer)
    requires { writer.old.end + 2 * length bytes.now ≤ length writer.old.run.now }
    ensures { Wrote (encoded bytes.now) writer.old writer.new }
{
    for byte in bytes {
        writer.text(&[digit_code(byte / 16), digit_code(byte % 16)]);
    }
}
