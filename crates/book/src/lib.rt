// The calls of a list, each by the code itself. Their contracts are what `step` says of the call (specs/Run.antt), so a list of
// steps, of which demand 3 speaks, is a list of calls. All else of this crate is definitions and laws: see specs/ and proofs/.
#![tactic(auto)]

ghost use Rattle.std.specs.Prelude.{◌≡◌};
ghost use Rattle.book.specs.Book.{Call.opening, Call.measuring, Call.fixing, Call.colouring};
ghost use Rattle.book.specs.Run.{step};

use dial::Dial;
use shot::{Answer, Shot};

// An opening puts a new shot in the place of the one that it gets.
pub fn open(shot: Shot) -> Answer
    ensures { result ≡ (step shot opening).answer }
{
    Answer {
        shot: Shot::open(),
        number: 0,
    }
}

// Measures a strip, by the shot's own call.
pub fn measure(shot: Shot, strip: &[u8]) -> Answer
    ensures { result ≡ (step shot (measuring strip.now)).answer }
{
    shot.measure(strip)
}

// Fixes the shot by a choice, which is a number as in the shot's own call.
pub fn fix(shot: Shot, choice: u32) -> Answer
    ensures { result ≡ (step shot (fixing choice)).answer }
{
    shot.fix(choice)
}

// Colours the source into the destination, by the shot's own call, with its arguments.
pub fn colour(shot: Shot, method: u32, dial: Dial, source: &[u8], destination: &mut [u8]) -> Answer
    ensures { step shot (colouring (record { method = method; dial = dial; source = source.now; destination = destination.old })) ≡ record { answer = result; bytes = destination.new } }
{
    shot.colour(method, dial, source, destination)
}
