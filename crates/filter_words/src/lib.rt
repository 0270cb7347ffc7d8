// The words that the filters `measure` and `colour` are given.
#![tactic(auto)]

ghost use Rattle.std.specs.Prelude.{◌≡◌, map, IfOk, string_bytes};
ghost use Rattle.std.specs.Vec.Iter.{into_iter_items};
ghost use Rattle.words.specs.Words.{word_at};
ghost use Rattle.filter_words.specs.FilterWords.{spaced, number_or, choice_in, method_or, setting_by, setting_or, job_in};

use dial_words::DialCommand;
use settings::Setting;
use std::alloc::{AllocError, Global};
use std::env::Args;
use words::{Fault, Found};

// The curve choice where none is given: the cube.
const CHOICE: u32 = 1;

// The method where none is given: Yang and Lee's.
const METHOD: u32 = 2;

// What a colouring is asked for. The numbers may be any: what is no method, no stop or no intensity is refused where the stream is coloured.
#[derive(Clone, Copy)]
pub struct Job {
    pub method: u32,
    pub setting: Setting,
}

// A number that stands for itself where its word is left out, which ends where the line begins.
fn left_out(number: u32) -> Found<u32>
    ensures { result ≡ record { value = number; end = 0 } }
{
    Found {
        value: number,
        end: 0,
    }
}

// The curve choice that a line has, and nothing else.
#[tactic(auto, unfolding(crate::specs::FilterWords::choice_in))]
pub fn read_choice(line: &[u8]) -> Result<u32, Fault>
    ensures { result ≡ choice_in line.now }
{
    let choice = match words::word_at(line, 0) {
        None => left_out(CHOICE),
        Some(_) => words::read_number(line, 0)?,
    };
    words::read_end(line, choice.end)?;
    Ok(choice.value)
}

// The method that a line begins with.
fn read_method(line: &[u8]) -> Result<Found<u32>, Fault>
    ensures { result ≡ method_or line.now (word_at line.now 0) }
{
    let Some(word) = words::word_at(line, 0) else {
        return Ok(left_out(METHOD));
    };
    if DialCommand::try_from(word.bytes_in(line)).is_ok() {
        return Ok(left_out(METHOD));
    }
    words::read_number(line, 0)
}

// What follows the word of a command.
fn read_value(command: DialCommand, line: &[u8], place: usize) -> Result<Found<Setting>, Fault>
    ensures { result ≡ setting_by command line.now place }
{
    match command {
        DialCommand::Off => Ok(Found {
            value: Setting::Off,
            end: place,
        }),
        DialCommand::Mix => Ok(words::read_number(line, place)?.map(Setting::Mix)),
        DialCommand::Hold => Ok(words::read_number(line, place)?.map(Setting::Hold)),
    }
}

// The command of the dial that follows a place.
fn read_setting(line: &[u8], place: usize) -> Result<Found<Setting>, Fault>
    ensures { result ≡ setting_or line.now place (word_at line.now place) }
{
    let Some(word) = words::word_at(line, place) else {
        return Ok(Found {
            value: Setting::Mix(settings::FULL),
            end: place,
        });
    };
    let command = DialCommand::try_from(word.bytes_in(line))?;
    read_value(command, line, word.end)
}

// The method and the command that a line has, and nothing else.
#[tactic(auto, unfolding(crate::specs::FilterWords::job_in))]
pub fn read_job(line: &[u8]) -> Result<Job, Fault>
    ensures { result ≡ job_in line.now }
{
    let method = read_method(line)?;
    let setting = read_setting(line, method.end)?;
    words::read_end(line, setting.end)?;
    Ok(Job {
        method: method.value,
        setting: setting.value,
    })
}

// The words that follow, put together to one line, each with a space after it.
pub fn line_of(words: Args, alloc: Global) -> Result<String, AllocError>
    ensures { IfOk result (λ line. string_bytes line ≡ spaced (map string_bytes (into_iter_items words))) }
{
    let mut line = String::new(alloc);
    for word in words {
        line.push_str(word.as_str())?;
        line.push_str(" ")?;
    }
    Ok(line)
}
