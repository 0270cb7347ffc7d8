// The lines along which samples move, held in fixed point. All pixels of one intensity go to one target, and their written samples then lie
// on one line: making it takes at most one division, and a sample on it none.
#![tactic(auto)]

ghost use Rattle.std.specs.Prelude.{◌≡◌, ◌≤◌};
ghost use Rattle.curve.specs.Curve.{EntriesInRange};
ghost use Rattle.lines.specs.Line.{parts_at, sample_at, line_from, in_fixed_point, Holdable, IsLineOf, LinesOf};

use pixel::{Direction, Line, Method};
use std::array;

// A step is one code value of a sample. A line counts it in 2^24 parts, so that dividing parts by it is a shift.
const STEP: u32 = 1 << 24;

// Half a step, by which whole steps are rounded to the nearest.
const HALF: u32 = STEP / 2;

// The parts of 255 steps.
const WHITE: u32 = 255 * STEP;

// A line in fixed point: the parts that each step of the sample read adds, and those at the sample 0.
#[derive(Clone, Copy)]
pub struct FixedLine {
    pub slope: u32,
    pub offset: u32,
}

impl FixedLine {
    // The parts of the line at c: one multiplication and one addition, in 32 bits. What goes beyond is a multiple of 256 steps and does not
    // change a sample.
    pub fn parts_at(self, c: u8) -> u32
        ensures { result ≡ parts_at self c }
    {
        u32::from(c)
            .wrapping_mul(self.slope)
            .wrapping_add(self.offset)
    }

    // The sample on the line at c: its whole steps.
    pub fn sample_at(self, c: u8) -> u8
        ensures { result ≡ sample_at self c }
    {
        (self.parts_at(c) / STEP) as u8
    }
}

// The line of slope n / d that has so many parts at the sample `start`. (The parts of a line one by one, as in the definition.)
fn line_from(start: u64, n: u64, d: u64, parts: u32) -> FixedLine
    requires { Holdable start n d }
    ensures { result ≡ line_from start n d parts }
{
    // One part more than the whole ones, so that no multiple falls short.
    let slope = (n * u64::from(STEP) / d + 1) as u32;
    // The offset is negative as a rule, and is held in 32 bits.
    let offset = parts.wrapping_sub((start as u32).wrapping_mul(slope));
    FixedLine { slope, offset }
}

// A line of a pixel's samples in fixed point. Up from black it starts half a step up, so that whole steps are rounded to the nearest; down
// from white, half a step below the last part.
fn in_fixed_point(line: Line) -> FixedLine
    requires { Holdable line.start line.numerator line.denominator }
    ensures { result ≡ in_fixed_point line }
{
    let parts = match line.direction {
        Direction::Up => HALF,
        Direction::Down => u32::MAX - HALF,
    };
    line_from(line.start, line.numerator, line.denominator, parts)
}

// The line of the pixels of intensity s. Black and white stay: their lines are level.
#[tactic(auto, using(crate::proofs::FixedPoint::holdable, crate::proofs::FixedPoint::fixed_moves), unfolding(pixel::specs::Move::moved_sample))]
fn fixed_line_of(method: Method, s: u64, f: u64) -> FixedLine
    requires { (s ≤ 765) × (f ≤ 765) }
    ensures { IsLineOf method s f result }
{
    if s == 0 {
        return FixedLine {
            slope: 0,
            offset: 0,
        };
    }
    if s == 765 {
        return FixedLine {
            slope: 0,
            offset: WHITE,
        };
    }
    in_fixed_point(pixel::line_of(method, s, f))
}

// The intensity that the pixels of each intensity go to: a curve's entries, none above 765.
#[derive(Clone, Copy)]
pub struct Targets<'a> {
    pub entries: &'a [u16; 766],
    ghost in_range: { EntriesInRange entries.now },
}

// The line of every intensity.
pub fn lines_of(targets: Targets, method: Method) -> [FixedLine; 766]
    ensures { LinesOf method targets.entry.entries.now result }
{
    // No `From` leads from `usize` to `u64`.
    array::from_fn(|s| fixed_line_of(method, s as u64, u64::from(targets.entries[s])))
}
