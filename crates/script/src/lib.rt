// A line of a script for the program `replay`, and what it is read as: numbers, and places in the line. docs/CALLS.md has the form of
// a script in words.
#![tactic(auto)]

ghost use Rattle.std.specs.Prelude.{◌≡◌, ok_or};
ghost use Rattle.words.specs.Words.{Within};
ghost use Rattle.words.specs.declared.Fault.TheVariants.{NoSuchCall};
ghost use Rattle.script.specs.Script.{open_at, measure_at, fix_at, colour_at, move_at, name_of, named_at, call_at, times_at, calls_at, text_line, line_of};

use dial::Dial;
use scanning::Class;
use words::{Fault, Found, Word};

// A line has at most so many bytes, its line feed not counted.
pub const LINE_LIMIT: usize = 65536;

// A call as a line has it. (A choice and a method stay numbers: the call refuses what is none.)
#[derive(Clone, Copy)]
pub enum Command {
    // The shot.
    Open(u32),
    // The shot and the strip.
    Measure(u32, Word),
    // The shot and the choice.
    Fix(u32, u32),
    // The shot, the method, the dial, the source and the destination.
    Colour(u32, u32, Dial, Word, Word),
    // The method, the pixel and the target.
    Move(u32, Word, u32),
}

// So many calls, all the same.
#[derive(Clone, Copy)]
pub struct Calls {
    pub times: u32,
    pub command: Command,
}

// The names of the calls.
#[derive(Clone, Copy, Debug, PartialEq, Eq)]
enum Name {
    Open,
    Measure,
    Fix,
    Colour,
    Move,
}

// open SHOT
#[tactic(auto, unfolding(crate::specs::Script::open_at))]
fn read_open(line: &[u8], place: usize) -> Result<Command, Fault>
    ensures { result ≡ open_at line.now place }
{
    let shot = words::read_shot(line, place)?;
    words::read_end(line, shot.end)?;
    Ok(Command::Open(shot.value))
}

// measure SHOT STRIP
#[tactic(auto, unfolding(crate::specs::Script::measure_at))]
fn read_measure(line: &[u8], place: usize) -> Result<Command, Fault>
    ensures { result ≡ measure_at line.now place }
{
    let shot = words::read_shot(line, place)?;
    let strip = words::read_strip(line, shot.end)?;
    words::read_end(line, strip.end)?;
    Ok(Command::Measure(shot.value, strip))
}

// fix SHOT CHOICE
#[tactic(auto, unfolding(crate::specs::Script::fix_at))]
fn read_fix(line: &[u8], place: usize) -> Result<Command, Fault>
    ensures { result ≡ fix_at line.now place }
{
    let shot = words::read_shot(line, place)?;
    let choice = words::read_number(line, shot.end)?;
    words::read_end(line, choice.end)?;
    Ok(Command::Fix(shot.value, choice.value))
}

// colour SHOT METHOD DIAL SOURCE DESTINATION
#[tactic(auto, unfolding(crate::specs::Script::colour_at))]
fn read_colour(line: &[u8], place: usize) -> Result<Command, Fault>
    ensures { result ≡ colour_at line.now place }
{
    let shot = words::read_shot(line, place)?;
    let method = words::read_number(line, shot.end)?;
    let dial = dial_words::read_dial(line, method.end)?;
    let source = words::read_strip(line, dial.end)?;
    let destination = words::read_strip(line, source.end)?;
    words::read_end(line, destination.end)?;
    Ok(Command::Colour(shot.value, method.value, dial.value, source, destination))
}

// move METHOD PIXEL TARGET
#[tactic(auto, unfolding(crate::specs::Script::move_at))]
fn read_move(line: &[u8], place: usize) -> Result<Command, Fault>
    ensures { result ≡ move_at line.now place }
{
    let method = words::read_number(line, place)?;
    let pixel = words::read_pixel(line, method.end)?;
    let target = words::read_number(line, pixel.end)?;
    words::read_end(line, target.end)?;
    Ok(Command::Move(method.value, pixel, target.value))
}

impl TryFrom<&[u8]> for Name {
    type Error = Fault;

    ghost try_from_gives = { λ word name. name ≡ ok_or (name_of word.now) NoSuchCall };

    // The call that a word names.
    #[tactic(auto, using(crate::proofs::Names::name_read, std::proofs::lemmas::Bool::Decides::nat_tests))]
    fn try_from(word: &[u8]) -> Result<Name, Fault> {
        match word {
            b"open" => Ok(Name::Open),
            b"measure" => Ok(Name::Measure),
            b"fix" => Ok(Name::Fix),
            b"colour" => Ok(Name::Colour),
            b"move" => Ok(Name::Move),
            _ => Err(Fault::NoSuchCall),
        }
    }
}

// What follows the name of a call. (A match, and no table of functions, of which a contract would have to cover all five.)
fn read_named(name: Name, line: &[u8], place: usize) -> Result<Command, Fault>
    ensures { result ≡ named_at name line.now place }
{
    match name {
        Name::Open => read_open(line, place),
        Name::Measure => read_measure(line, place),
        Name::Fix => read_fix(line, place),
        Name::Colour => read_colour(line, place),
        Name::Move => read_move(line, place),
    }
}

// The call that follows a place.
#[tactic(auto, unfolding(crate::specs::Script::call_at))]
fn read_call(line: &[u8], place: usize) -> Result<Command, Fault>
    ensures { result ≡ call_at line.now place }
{
    let word = words::read_word(line, place)?;
    let name = Name::try_from(word.bytes_in(line))?;
    read_named(name, line, word.end)
}

// How often the call of a line is made, and where it stands: after `repeat` and a number as often as that says, else once.
#[tactic(auto, using(words::proofs::Texts::same_answer), unfolding(crate::specs::Script::times_at))]
fn read_times(line: &[u8], first: Word) -> Result<Found<u32>, Fault>
    requires { Within first line.now }
    ensures { result ≡ times_at line.now first }
{
    if first.bytes_in(line) == b"repeat".as_slice() {
        return words::read_number(line, first.end);
    }
    Ok(Found { value: 1, end: 0 })
}

// A call, and how often it is made.
#[tactic(auto, unfolding(crate::specs::Script::calls_at))]
fn read_calls(line: &[u8], first: Word) -> Result<Option<Calls>, Fault>
    requires { Within first line.now }
    ensures { result ≡ calls_at line.now first }
{
    let times = read_times(line, first)?;
    let command = read_call(line, times.end)?;
    Ok(Some(Calls {
        times: times.value,
        command,
    }))
}

// What a line without its comment is read as.
#[tactic(auto, unfolding(crate::specs::Script::text_line))]
fn read_text(line: &[u8]) -> Result<Option<Calls>, Fault>
    ensures { result ≡ text_line line.now }
{
    let Some(first) = words::word_at(line, 0) else {
        return Ok(None);
    };
    read_calls(line, first)
}

// What a line is read as: `None` where it is white space, or a comment, and nothing else. A comment begins with # and reaches to the
// end of the line.
#[tactic(auto, using(crate::proofs::Comments::cuts), unfolding(crate::specs::Script::line_of))]
pub fn read_line(line: &[u8]) -> Result<Option<Calls>, Fault>
    ensures { result ≡ line_of line.now }
{
    if LINE_LIMIT < line.len() {
        return Err(Fault::TooLong);
    }
    let end = scanning::run_end(Class::Uncommented, line, 0);
    read_text(&line[..end])
}
