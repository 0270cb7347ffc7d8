// Text in lent runs of bytes; decimal numbers, read and written.
#![tactic(auto)]

ghost use Rattle.std.specs.Prelude.{◌≡◌, true, ◌+◌, ◌-◌, ◌≤◌, ◌<◌, length};
ghost use Rattle.text.specs.Text.{Writes, Wrote};
ghost use Rattle.text.specs.Decimal.{zero_code, is_digit, Digits, value, decimal};

// The number that at most 19 digits stand for: so many fit 64 bits.
// `str::parse` would ask again whether the bytes are text and digits, and hand back a Result.
pub fn read_decimal(digits: &[u8]) -> u64
    requires { (length digits.now ≤ 19) × Digits digits.now }
    ensures { result ≡ value digits.now }
{
    let mut number: u64 = 0;
    for digit in digits {
        number = 10 * number + u64::from(digit - b'0');
    }
    number
}

// A lent run of bytes, and the place in it up to which text is written. (std's `Cursor` answers each write by a Result, also where there is
// room.)
#[derive(Drop)]
pub struct Writer<'a> {
    pub run: &'a mut [u8],
    pub end: usize,
}

impl<'a> Writer<'a> {
    // Writes from the start of the run on.
    pub fn new(run: &'a mut [u8]) -> Writer<'a>
        ensures same_run { result.run.ghost_name ≡ run.entry.ghost_name }
        ensures held { result.run.now ≡ run.old }
        ensures same_length { length result.run.now ≡ length run.old }
        ensures start { result.end ≡ 0 }
    {
        Writer { run, end: 0 }
    }

    // Writes the text.
    pub fn text(&mut self, text: &[u8])
        requires { self.old.end + length text.now ≤ length self.old.run.now }
        ensures { Wrote text.now self.old self.new }
    {
        let end = self.end + text.len();
        self.run[self.end..end].copy_from_slice(text);
        self.end = end;
    }

    // Writes n in decimal.
    // Of `write!` it cannot be shown that it does not fail, and `to_string` allocates.
    #[tactic(auto, using(crate::proofs::Decimal::decimal_one, crate::proofs::Decimal::decimal_more, crate::proofs::Runs::wrote_more, crate::proofs::Writing::tenth_shorter))]
    pub fn number(&mut self, n: u64)
        requires { self.old.end + length (decimal n) ≤ length self.old.run.now }
        ensures { Wrote (decimal n) self.old self.new }
    {
        if n < 10 {
            return self.text(&[b'0' + n as u8]);
        }
        self.number(n / 10);
        self.text(&[b'0' + (n % 10) as u8]);
    }
}
