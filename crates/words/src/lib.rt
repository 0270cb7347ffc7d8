// The words of a line of a script: white space, numbers, and bytes in hexadecimal digits.
#![tactic(auto)]

ghost use Rattle.std.specs.Prelude.{◌≡◌, IfSome, IfOk};
ghost use Rattle.words.specs.Words.{Within, word_at, word_in, word_due, number_of, number_at, is_shot, shot_at, is_strip, strip_at, is_pixel, pixel_at, end_at};

use scanning::Class;

// A script's shots have the numbers from 1 to this one.
const LAST_SHOT: u32 = 4;

// A number of a script has at most so many digits.
const DIGIT_LIMIT: usize = 10;

// Where a word stands in its line: from `start` up to `end`, the place after it. (Places, and no slice of the line: what a line is read as
// is then plain data, which the examples give in figures.)
#[derive(Clone, Copy)]
pub struct Word {
    pub start: usize,
    pub end: usize,
}

impl Word {
    // The bytes of a word of a line.
    pub fn bytes_in(self, line: &[u8]) -> &[u8]
        requires { Within self line.now }
        ensures { result.now ≡ word_in line.now self }
    {
        &line[self.start..self.end]
    }
}

// What words of a line stand for, and the place after them.
// A cursor over the line would save no argument in the contracts: each would speak of its place before and after.
#[derive(Clone, Copy)]
pub struct Found<T> {
    pub value: T,
    pub end: usize,
}

impl<T> Found<T> {
    // The same place, with what is made of the value.
    pub fn map<U, F>(self, make: F) -> Found<U>
    where
        F: FnOnce(T) -> U,
        requires { F.pre make self.value }
        ensures value { F.post make self.value result.value }
        ensures end { result.end ≡ self.end }
    {
        Found {
            value: make(self.value),
            end: self.end,
        }
    }
}

// Why a line is no call.
#[derive(Clone, Copy, Debug, PartialEq, Eq)]
pub enum Fault {
    // The line has more bytes than a line may have.
    TooLong,
    // The word that has to name a call names none.
    NoSuchCall,
    // A word is missing.
    TooFewWords,
    // A word is left.
    TooManyWords,
    // A word that has to be a number is none.
    NotANumber,
    // A number that has to be a shot's is none.
    NoSuchShot,
    // A word that has to be bytes is neither pairs of hexadecimal digits nor -.
    NotPairs,
    // A word that has to be a pixel is not six hexadecimal digits.
    NotAPixel,
    // A word that has to name a command of the dial names none.
    NoSuchDial,
    // A word that has to be a float is neither eight hexadecimal digits nor nan.
    NotAFloat,
}

// The word that follows a place: past white space, up to the next. It has at least one byte; `None` where no word is left.
#[tactic(auto, using(crate::proofs::Places::found_within), unfolding(crate::specs::Words::word_at))]
pub fn word_at(line: &[u8], place: usize) -> Option<Word>
    ensures value { result ≡ word_at line.now place }
    ensures within { IfSome result (λ word. Within word line.now) }
{
    let start = scanning::run_end(Class::Space, line, place);
    let end = scanning::run_end(Class::Word, line, start);
    if start == end {
        return None;
    }
    Some(Word { start, end })
}

// The word that has to follow a place.
#[tactic(auto, unfolding(crate::specs::Words::word_due))]
pub fn read_word(line: &[u8], place: usize) -> Result<Word, Fault>
    ensures value { result ≡ word_due line.now place }
    ensures within { IfOk result (λ word. Within word line.now) }
{
    word_at(line, place).ok_or(Fault::TooFewWords)
}

// The number that a word stands for: 1 to 10 digits, and no more than 32 bits hold.
#[tactic(auto, using(crate::proofs::Numerals::all_digits), unfolding(crate::specs::Words::number_of))]
fn number_of(word: &[u8]) -> Option<u32>
    ensures { result ≡ number_of word.now }
{
    if word.is_empty() || DIGIT_LIMIT < word.len() {
        return None;
    }
    if scanning::run_end(Class::Digit, word, 0) != word.len() {
        return None;
    }
    u32::try_from(text::read_decimal(word)).ok()
}

// The number that follows a place. (`dial_words` reads floats so. One function for both would be bounded by a trait of this crate, which
// `dial_words` may not implement for `f32`: it would need a type of its own around the float. With the reading handed in it would need a
// contract on what that returns, longer than both, as at `read_strip`.)
#[tactic(auto, unfolding(crate::specs::Words::number_at))]
pub fn read_number(line: &[u8], place: usize) -> Result<Found<u32>, Fault>
    ensures { result ≡ number_at line.now place }
{
    let word = read_word(line, place)?;
    let value = number_of(word.bytes_in(line)).ok_or(Fault::NotANumber)?;
    Ok(Found {
        value,
        end: word.end,
    })
}

// Whether a number is that of a shot.
fn is_shot(number: u32) -> bool
    ensures { result ≡ is_shot number }
{
    (1..=LAST_SHOT).contains(&number)
}

// The shot's number that follows a place.
#[tactic(auto, unfolding(crate::specs::Words::shot_at))]
pub fn read_shot(line: &[u8], place: usize) -> Result<Found<u32>, Fault>
    ensures { result ≡ shot_at line.now place }
{
    let shot = read_number(line, place)?;
    if !is_shot(shot.value) {
        return Err(Fault::NoSuchShot);
    }
    Ok(shot)
}

// Whether a word is a strip: pairs of hexadecimal digits, or - for an empty one.
#[tactic(auto, using(crate::proofs::Texts::same_answer))]
fn is_strip(word: &[u8]) -> bool
    ensures { result ≡ is_strip word.now }
{
    word == b"-".as_slice() || hexadecimal::is_pairs(word)
}

// Whether a word is a pixel: six hexadecimal digits.
fn is_pixel(word: &[u8]) -> bool
    ensures { result ≡ is_pixel word.now }
{
    word.len() == 6 && hexadecimal::is_pairs(word)
}

// The strip that follows a place.
// One function for strips and pixels, with the test handed in, would need a contract on what a closure returns, longer than both; with a
// name of what is due it would switch on that.
#[tactic(auto, unfolding(crate::specs::Words::strip_at))]
pub fn read_strip(line: &[u8], place: usize) -> Result<Word, Fault>
    ensures { result ≡ strip_at line.now place }
{
    let word = read_word(line, place)?;
    if !is_strip(word.bytes_in(line)) {
        return Err(Fault::NotPairs);
    }
    Ok(word)
}

// The pixel that follows a place.
#[tactic(auto, unfolding(crate::specs::Words::pixel_at))]
pub fn read_pixel(line: &[u8], place: usize) -> Result<Word, Fault>
    ensures { result ≡ pixel_at line.now place }
{
    let word = read_word(line, place)?;
    if !is_pixel(word.bytes_in(line)) {
        return Err(Fault::NotAPixel);
    }
    Ok(word)
}

// Sees that no word is left after a place.
#[tactic(auto, unfolding(crate::specs::Words::end_at))]
pub fn read_end(line: &[u8], place: usize) -> Result<(), Fault>
    ensures { result ≡ end_at line.now place }
{
    if word_at(line, place).is_some() {
        return Err(Fault::TooManyWords);
    }
    Ok(())
}
