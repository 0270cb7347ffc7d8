// Why a call is refused (document 01, "Who can cause which refusal").
#![tactic(auto)]

ghost use Rattle.std.specs.Prelude.{◌≡◌};
ghost use Rattle.refusal.specs.Numbers.{refusal_number, number_in};

// The refusals, each with its number. 0 is "accepted".
#[derive(Clone, Copy, Debug, PartialEq, Eq)]
pub enum Refusal {
    // The shot has been fixed already.
    AlreadyFixed = 1,
    // The length of a strip, or of a colouring's source, is not a multiple of 3.
    NotWholePixels = 2,
    // The pixels would exceed the limit.
    TooManyPixels = 3,
    // The curve choice is not 1 or 2.
    NoSuchChoice = 4,
    // No pixel has been measured, or the strip is empty.
    NoPixel = 5,
    // The shot has not been fixed.
    NotFixed = 6,
    // The method is not 1 or 2.
    NoSuchMethod = 7,
    // Destination and source differ in length.
    LengthsDiffer = 8,
    // The target is above 765.
    TargetTooLarge = 9,
    // A curve's bytes are not 1,532 long.
    CurveLengthWrong = 10,
    // A curve's entries break the rule.
    CurveRuleBroken = 11,
    // A file's header is malformed or ends early.
    HeaderMalformed = 12,
    // A file's largest sample value is not 255.
    OtherLargestValue = 13,
    // A file's width times height is 0 or above the limit.
    AreaOutOfRange = 14,
    // A file has fewer samples than its header says.
    TooFewSamples = 15,
    // A file has bytes after its samples.
    BytesAfterSamples = 16,
    // The dial's amount is not a stop, k / 256 with k from 0 to 256.
    NotAStop = 17,
    // The dial's held value is not a whole intensity from 0 to 765.
    NotAnIntensity = 18,
}

impl From<Refusal> for u32 {
    ghost from_gives = { λ refusal number. number ≡ refusal_number refusal };

    fn from(refusal: Refusal) -> u32 {
        refusal as u32
    }
}

// What an answer tells as a number: 0 where it is accepted, else the refusal's.
pub fn number_in<T>(answer: &Result<T, Refusal>) -> u32
    ensures { result ≡ number_in answer.now }
{
    match answer {
        Ok(_) => 0,
        Err(refusal) => u32::from(*refusal),
    }
}
