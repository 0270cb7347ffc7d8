// The dial among the words of a line of a script: off, mix and a float, or hold and a float.
#![tactic(auto)]

ghost use Rattle.std.specs.Prelude.{◌≡◌, length, ok_or};
ghost use Rattle.std.specs.Float.{binary32};
ghost use Rattle.std.specs.Float.Ieee.{of_bits};
ghost use Rattle.hexadecimal.specs.Hexadecimal.{decoded};
ghost use Rattle.words.specs.declared.Fault.TheVariants.{NoSuchDial};
ghost use Rattle.dial_words.specs.DialWords.{pattern_of, float_of, float_at, command_of, command_at, dial_at};

use dial::Dial;
use words::{Fault, Found};

// The commands of the dial.
#[derive(Clone, Copy, Debug, PartialEq, Eq)]
pub enum DialCommand {
    Off,
    Mix,
    Hold,
}

// The float that eight digits stand for, the most significant byte first.
fn float_of_digits(digits: &[u8]) -> f32
    requires { length digits.now ≡ 8 }
    ensures { result ≡ of_bits binary32 (pattern_of (decoded digits.now)) }
{
    let mut bytes = [0u8; 4];
    hexadecimal::decode(digits, &mut bytes);
    let pattern = u32::from_be_bytes(bytes);
    // `from_bits` is not defined at a pattern of NaN.
    std::num::f32_from_bits_with_nan(pattern)
}

// The float that a word stands for: eight hexadecimal digits, or nan.
#[tactic(auto, using(words::proofs::Texts::same_answer, crate::proofs::Patterns::the_nan), unfolding(crate::specs::DialWords::float_of))]
fn float_of(word: &[u8]) -> Option<f32>
    ensures { result ≡ float_of word.now }
{
    if word == b"nan".as_slice() {
        return Some(f32::NAN);
    }
    if word.len() != 8 || !hexadecimal::is_pairs(word) {
        return None;
    }
    Some(float_of_digits(word))
}

// The float that follows a place. (`words::read_number` reads numbers so, and says why it is another function.)
#[tactic(auto, unfolding(crate::specs::DialWords::float_at))]
pub fn read_float(line: &[u8], place: usize) -> Result<Found<f32>, Fault>
    ensures { result ≡ float_at line.now place }
{
    let word = words::read_word(line, place)?;
    let value = float_of(word.bytes_in(line)).ok_or(Fault::NotAFloat)?;
    Ok(Found {
        value,
        end: word.end,
    })
}

impl TryFrom<&[u8]> for DialCommand {
    type Error = Fault;

    ghost try_from_gives = { λ word command. command ≡ ok_or (command_of word.now) NoSuchDial };

    // The command that a word names.
    #[tactic(auto, using(crate::proofs::Commands::command_read, std::proofs::lemmas::Bool::Decides::nat_tests))]
    fn try_from(word: &[u8]) -> Result<DialCommand, Fault> {
        match word {
            b"off" => Ok(DialCommand::Off),
            b"mix" => Ok(DialCommand::Mix),
            b"hold" => Ok(DialCommand::Hold),
            _ => Err(Fault::NoSuchDial),
        }
    }
}

// What follows the command of a dial.
fn read_command(command: DialCommand, line: &[u8], place: usize) -> Result<Found<Dial>, Fault>
    ensures { result ≡ command_at command line.now place }
{
    match command {
        DialCommand::Off => Ok(Found {
            value: Dial::Off,
            end: place,
        }),
        DialCommand::Mix => Ok(read_float(line, place)?.map(Dial::Mix)),
        DialCommand::Hold => Ok(read_float(line, place)?.map(Dial::Hold)),
    }
}

// The dial that follows a place.
#[tactic(auto, unfolding(crate::specs::DialWords::dial_at))]
pub fn read_dial(line: &[u8], place: usize) -> Result<Found<Dial>, Fault>
    ensures { result ≡ dial_at line.now place }
{
    let word = words::read_word(line, place)?;
    let command = DialCommand::try_from(word.bytes_in(line))?;
    read_command(command, line, word.end)
}
