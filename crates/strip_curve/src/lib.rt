// The tone curve of a strip taken as a whole shot (document 01, "The panel's host"): for callers that keep no shot.
#![tactic(auto)]

ghost use Rattle.std.specs.Prelude.{◌≡◌};
ghost use Rattle.refusal.specs.Refusal.{first_of};
ghost use Rattle.refusal.specs.Numbers.{number_in};
ghost use Rattle.strip_curve.specs.OneStrip.{strip_checks, strip_answer, strip_curve};

use curve::Choice;
use refusal::Refusal;

// 2, 5, 3: the first that applies. (Three facts, and not a length: of no length could it be seen that 5 stands before 3.)
fn check_strip(whole: bool, empty: bool, over: bool) -> Result<(), Refusal>
    ensures { number_in result ≡ first_of (strip_checks whole empty over) }
{
    if !whole {
        return Err(Refusal::NotWholePixels);
    }
    if empty {
        return Err(Refusal::NoPixel);
    }
    if over {
        return Err(Refusal::TooManyPixels);
    }
    Ok(())
}

// The tone curve of the strip by the choice. Refused: 2, 5, 3.
#[tactic(auto, using(crate::proofs::Laws::answer_refused))]
pub fn curve_of_strip(choice: Choice, strip: &[u8]) -> Result<[u16; 766], Refusal>
    ensures { strip_answer result ≡ strip_curve choice strip.now }
{
    let length = strip.len();
    check_strip(
        length % 3 == 0,
        length == 0,
        measuring::PIXEL_LIMIT < length / 3,
    )?;
    let counts = measuring::count_strip([0; 766], strip);
    Ok(curve::tone_curve(choice, (length / 3) as u32, &counts))
}
