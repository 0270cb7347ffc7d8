// Bytes of one class that stand one after the other, as the white space or the digits of a text.
#![tactic(auto)]

ghost use Rattle.std.specs.Prelude.{◌≡◌, ◌+◌, drop};
ghost use Rattle.std.specs.List.{prefix_len};
ghost use Rattle.scanning.specs.Scanning.{is_space, in_class, run_length};

// The classes of bytes that are looked for.
// An enum, and not a test that is passed on: a contract then names the class, by one definition.
#[derive(Clone, Copy, Debug, PartialEq, Eq)]
pub enum Class {
    // White space.
    Space,
    // A decimal digit.
    Digit,
    // A hexadecimal digit.
    HexDigit,
    // What a word is made of: all but white space.
    Word,
    // What stands before a comment: all but #.
    Uncommented,
    // What stands in a header's comment, its # included: all but LF and CR, which end it.
    Comment,
    // What a line is made of: all but LF.
    Line,
}

// Space, tab, LF, VT, FF, CR. Rust's `is_ascii_whitespace` leaves out VT.
pub fn is_space(b: u8) -> bool
    ensures { result ≡ is_space b }
{
    matches!(b, b' ' | b'\t'..=b'\r')
}

// Whether a byte is of the class.
pub fn in_class(class: Class, b: u8) -> bool
    ensures { result ≡ in_class class b }
{
    match class {
        Class::Space => is_space(b),
        Class::Digit => b.is_ascii_digit(),
        Class::HexDigit => b.is_ascii_hexdigit(),
        Class::Word => !is_space(b),
        Class::Uncommented => b != b'#',
        Class::Comment => b != b'\n' && b != b'\r',
        Class::Line => b != b'\n',
    }
}

// How many bytes of the class the text begins with.
fn run_length(class: Class, bytes: &[u8]) -> usize
    ensures { result ≡ prefix_len (in_class class) bytes.now }
{
    bytes.iter().take_while(|b| in_class(class, **b)).count()
}

// The place after the bytes of the class that stand at `place`.
#[tactic(auto, using(crate::proofs::Runs::ends))]
pub fn run_end(class: Class, bytes: &[u8], place: usize) -> usize
    ensures { result ≡ place + run_length (in_class class) (drop place bytes.now) }
{
    match bytes.get(place..) {
        Some(rest) => place + run_length(class, rest),
        None => place,
    }
}
