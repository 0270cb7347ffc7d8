// Colouring a stream of pixels of any length by a curve that is handed in, piece by piece. It keeps nothing between two pieces but how the
// stream is coloured.
#![tactic(auto)]

ghost use Rattle.std.specs.Prelude.{◌≡◌, ◌≤◌, length, IfOk, IfSome, Err};
ghost use Rattle.refusal.specs.Numbers.{number_in};
ghost use Rattle.refusal.specs.Refusal.{first_of};
ghost use Rattle.colouring.specs.Inner.{SameSize};
ghost use Rattle.pieces.specs.declared.Failure.TheVariants.{Refused};
ghost use Rattle.stream_colouring.specs.StreamColour.{opening_number, setting_checks, stream_colour, Leaves};
ghost use Rattle.stream_colouring.specs.Inner.{IsGrade, coloured_by, Writes};

mod grade;

use grade::Grade;
use lines::Targets;
use pieces::Failure;
use pixel::Method;
use refusal::Refusal;
use settings::Setting;
use std::io::{Read, Write};

// 17, 18: a command of the dial in whole numbers.
fn check_setting(setting: Setting) -> Result<(), Refusal>
    ensures { number_in result ≡ first_of (setting_checks setting) }
{
    match setting {
        Setting::Off => Ok(()),
        Setting::Mix(k) => {
            if k > settings::FULL {
                return Err(Refusal::NotAStop);
            }
            Ok(())
        }
        Setting::Hold(v) => {
            if v > 765 {
                return Err(Refusal::NotAnIntensity);
            }
            Ok(())
        }
    }
}

impl Grade {
    // Looks at what a caller hands in. Refused: 10, 11, 7, 17 or 18.
    fn new(curve: &[u8], method: u32, setting: Setting) -> Result<Grade, Refusal>
        ensures number { number_in result ≡ opening_number curve.now method setting }
        ensures parts { IfOk result (IsGrade curve.now method setting) }
    {
        let entries = curve_bytes::accepted_entries(curve)?;
        let method = Method::try_from(method)?;
        check_setting(setting)?;
        Ok(Grade {
            entries,
            method,
            setting,
        })
    }

    // Colours whole pixels into a destination of the same length.
    #[tactic(auto, using(crate::proofs::Checks::accepted_in_range))]
    fn colour(&self, source: &[u8], destination: &mut [u8])
        requires { SameSize source.now destination.old }
        ensures { destination.new ≡ coloured_by self.now source.now }
    {
        let targets = Targets {
            entries: &self.entries,
        };
        colouring::colour_under(self.setting, targets, self.method, source, destination);
    }

    // Colours the whole pixels of a piece and writes them. Refused: 2, where bytes are left over.
    fn write_piece<W: Write>(
        &self,
        piece: &[u8],
        room: &mut [u8],
        writer: &mut W,
    ) -> Result<(), Failure>
        requires { length piece.now ≤ length room.old }
        ensures { Writes self.now piece.now (W.contents writer.old) (W.contents writer.new) result }
    {
        let whole = piece.len() - piece.len() % 3;
        let coloured = &mut room[..whole];
        self.colour(&piece[..whole], coloured);
        let Ok(()) = writer.write_all(coloured) else {
            return Err(Failure::NotWritten);
        };
        if whole < piece.len() {
            return Err(Failure::from(Refusal::NotWholePixels));
        }
        Ok(())
    }

    // Colours the stream piece by piece and writes it. The first piece that is not whole, which is the last, ends it.
    fn write_stream<R: Read, W: Write>(&self, reader: &mut R, writer: &mut W) -> Result<(), Failure>
        ensures { IfSome (R.remaining reader.old) (λ stream. Writes self.now stream (W.contents writer.old) (W.contents writer.new) result) }
    {
        let mut buffer = pieces::piece_buffer();
        let mut room = pieces::piece_buffer();
        // a proved loop has to end, and nothing says that a stream does
        for _ in 0..u64::MAX {
            let filled = reading::fill(reader, &mut buffer);
            if filled.failed {
                return Err(Failure::NotRead);
            }
            self.write_piece(&buffer[..filled.size], &mut room, writer)?;
            if filled.size < buffer.len() {
                return Ok(());
            }
        }
        Err(Failure::NotRead)
    }
}

// Colours the stream by a curve of 1,532 bytes, a method and a command of the dial in whole numbers. Refused: 10, 11, 7, then 17 or 18, before
// a byte is read or written; 2 at the stream's end.
pub fn colour_stream<R: Read, W: Write>(
    curve: &[u8],
    method: u32,
    setting: Setting,
    reader: &mut R,
    writer: &mut W,
) -> Result<(), Failure>
    ensures before { (opening_number curve.now method setting ≡ 0 → ⊥) → (result ≡ Err (Refused (opening_number curve.now method setting))) × (reader.new ≡ reader.old) × (writer.new ≡ writer.old) }
    ensures told { IfSome (R.remaining reader.old) (λ stream. Leaves (stream_colour (record { curve = curve.now; method = method; setting = setting; stream = stream })) (W.contents writer.old) (W.contents writer.new) result) }
{
    let grade = Grade::new(curve, method, setting)?;
    grade.write_stream(reader, writer)
}
