// The calls for the panel's host program, which is written in C (document 01, "The panel's host"): so choices, methods and answers are
// numbers, also here, since the crate `host_c` hands the calls to C as they are, contract and all. They keep nothing between calls.
#![tactic(auto)]

ghost use Rattle.std.specs.Prelude.{◌≡◌};
ghost use Rattle.refusal.specs.Numbers.{number_in};
ghost use Rattle.host.specs.Host.{curve_outcome, colour_outcome};

use curve::Choice;
use lines::Targets;
use pixel::Method;
use refusal::Refusal;

// Writes the tone curve of the strip, taken as a whole shot, as 1,532 bytes. Refused: 4, 10, 2, 5, 3.
pub fn cube_balance_curve(strip: &[u8], choice: u32, curve: &mut [u8]) -> u32
    ensures { curve_outcome (record { strip = strip.now; choice = choice; curve = curve.old }) ≡ record { number = result; bytes = curve.new } }
{
    refusal::number_in(&write_curve(strip, choice, curve))
}

// The same, as a `Result`.
#[tactic(auto, unfolding(crate::specs::Host::curve_outcome))]
fn write_curve(strip: &[u8], choice: u32, bytes: &mut [u8]) -> Result<(), Refusal>
    ensures { curve_outcome (record { strip = strip.now; choice = choice; curve = bytes.old }) ≡ record { number = number_in result; bytes = bytes.new } }
{
    let choice = Choice::try_from(choice)?;
    let Some(bytes) = bytes.as_mut_array() else {
        return Err(Refusal::CurveLengthWrong);
    };
    let entries = strip_curve::curve_of_strip(choice, strip)?;
    curve_bytes::write_curve(&entries, bytes);
    Ok(())
}

// Colours the source into the destination by a curve of 1,532 bytes. Refused: 10, 11, 7, 2, 8.
pub fn cube_balance_colour(curve: &[u8], method: u32, source: &[u8], destination: &mut [u8]) -> u32
    ensures { colour_outcome (record { curve = curve.now; method = method; source = source.now; destination = destination.old }) ≡ record { number = result; bytes = destination.new } }
{
    refusal::number_in(&colour(curve, method, source, destination))
}

// The same, as a `Result`.
#[tactic(auto, unfolding(crate::specs::Host::colour_outcome))]
fn colour(curve: &[u8], method: u32, source: &[u8], destination: &mut [u8]) -> Result<(), Refusal>
    ensures { colour_outcome (record { curve = curve.now; method = method; source = source.now; destination = destination.old }) ≡ record { number = number_in result; bytes = destination.new } }
{
    let entries = curve_bytes::accepted_entries(curve)?;
    let method = Method::try_from(method)?;
    colouring::check_sizes(source, destination)?;
    let targets = Targets { entries: &entries };
    colouring::colour_strip(targets, method, source, destination);
    Ok(())
}
