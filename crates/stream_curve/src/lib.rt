// The tone curve of a stream of pixels of any length, by a shot's own calls, piece by piece.
#![tactic(auto)]

ghost use Rattle.std.specs.Prelude.{◌≡◌, false, IfSome, IfOk, Err};
ghost use Rattle.curve.specs.Choices.{is_choice};
ghost use Rattle.shot.specs.Shot.{fixed_with};
ghost use Rattle.pieces.specs.declared.Failure.TheVariants.{Refused};
ghost use Rattle.stream_curve.specs.StreamCurve.{Tells, stream_measured, stream_curve};
ghost use Rattle.stream_curve.specs.Inner.{Measures, Fixes};

use curve::Choice;
use curve_bytes::CURVE_LENGTH;
use pieces::Failure;
use shot::Shot;
use std::io::Read;

// Measures the stream piece by piece into a shot that is opened for it. The first piece that is refused ends it.
fn measure_pieces<R: Read>(reader: &mut R) -> Result<Shot, Failure>
    ensures told { IfSome (R.remaining reader.old) (λ stream. Measures (stream_measured stream) result) }
    ensures unfixed { IfOk result (λ shot. shot.fixed ≡ false) }
{
    let mut buffer = pieces::piece_buffer();
    let mut shot = Shot::open();
    // a proved loop has to end, and nothing says that a stream does
    for _ in 0..u64::MAX {
        let filled = reading::fill(reader, &mut buffer);
        if filled.failed {
            return Err(Failure::NotRead);
        }
        let answer = shot.measure(&buffer[..filled.size]);
        if answer.number != 0 {
            return Err(Failure::Refused(answer.number));
        }
        shot = answer.shot;
        if filled.size < buffer.len() {
            return Ok(shot);
        }
    }
    Err(Failure::NotRead)
}

// Fixes a measured shot, and hands out its curve as bytes. (A shot that was not fixed has a curve afterwards just where fixing was accepted.)
fn fixed_bytes(shot: Shot, choice: u32) -> Result<[u8; CURVE_LENGTH], Failure>
    requires { shot.fixed ≡ false }
    ensures { Fixes (fixed_with shot choice) result }
{
    let answer = shot.fix(choice);
    let Some(curve) = shot::curve_of(&answer.shot) else {
        return Err(Failure::Refused(answer.number));
    };
    let mut bytes = [0; CURVE_LENGTH];
    curve_bytes::write_curve(&curve, &mut bytes);
    Ok(bytes)
}

// The curve of the whole stream as one shot. Refused: 4, before a byte is read; 2 or 3; 5.
pub fn measure_stream<R: Read>(choice: u32, reader: &mut R) -> Result<[u8; CURVE_LENGTH], Failure>
    ensures before { is_choice choice ≡ false → (result ≡ Err (Refused 4)) × (reader.new ≡ reader.old) }
    ensures told { IfSome (R.remaining reader.old) (λ stream. Tells (stream_curve choice stream) result) }
{
    // before any byte is read; fixing takes the number
    let _ = Choice::try_from(choice)?;
    let shot = measure_pieces(reader)?;
    fixed_bytes(shot, choice)
}
