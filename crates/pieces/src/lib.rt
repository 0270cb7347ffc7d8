// The pieces in which the filters take a stream of any length.
#![tactic(auto)]

ghost use Rattle.std.specs.Prelude.{◌≡◌, length};
ghost use Rattle.refusal.specs.Numbers.{refusal_number};
ghost use Rattle.pieces.specs.Pieces.{piece_length};
ghost use Rattle.pieces.specs.declared.Failure.TheVariants.{Refused};

use refusal::Refusal;
use std::fmt;

// A piece has at most so many bytes: 65,536 pixels. So many cost much more than the lines that each colouring makes, and both
// buffers of a filter still stay near the processor.
pub const PIECE_LENGTH: usize = 196608;

// Room for a piece, since nothing allocates. Its contract gives only the length, so that no proof has so many zeros to look at.
pub fn piece_buffer() -> [u8; PIECE_LENGTH]
    ensures { piece_length ≡ length result }
{
    [0; PIECE_LENGTH]
}

// Why a filter stops before it has done its work.
#[derive(Clone, Copy, Debug, PartialEq, Eq)]
pub enum Failure {
    // A check refused what the filter was given, by this number.
    Refused(u32),
    // The stream could not be read.
    NotRead,
    // What comes of the stream could not be written.
    NotWritten,
}

impl From<Refusal> for Failure {
    ghost from_gives = { λ refusal failure. failure ≡ Refused (refusal_number refusal) };

    fn from(refusal: Refusal) -> Failure {
        Failure::Refused(u32::from(refusal))
    }
}

impl fmt::Display for Failure {
    fn fmt<W: fmt::Write>(&self, f: &mut fmt::Formatter<W>) -> fmt::Result {
        match self {
            Failure::Refused(number) => write!(f, "refused {number}"),
            Failure::NotRead => write!(f, "the input could not be read"),
            Failure::NotWritten => write!(f, "the output could not be written"),
        }
    }
}
