// Writing a pixel along its line into a lent run of bytes. (A run and a place in it, and no part of the run: a sample's store also reaches
// bytes before its own.)
#![tactic(auto)]

ghost use Rattle.std.specs.Prelude.{[], ◌∷◌, ◌+◌, ◌/◌, ◌^◌, ◌<◌, length};
ghost use Rattle.pixel.specs.Move.{each_sample};
ghost use Rattle.pixel.specs.Strip.{bytes_of};
ghost use Rattle.lines.specs.Line.{sample_at};
ghost use Rattle.writing.specs.Inner.{WrittenFrom};

use lines::FixedLine;
use pixel::Pixel;

// Writes the sample of so many parts at byte i + 3. It is their highest byte, and the lower three go to the bytes before it: the
// compiler makes one store of the four, with no shift.
fn write_sample(parts: u32, destination: &mut [u8], i: usize)
    requires { i + 3 < length destination.old }
    ensures { WrittenFrom destination.old destination.new i (i + 3) (parts / 2 ^ 24 ∷ []) }
{
    destination[i..i + 4].copy_from_slice(&parts.to_le_bytes());
}

// Writes the second of the two pixels at byte i, moved along its line, from blue to red: each store also sets the three bytes before its
// sample. So the first one's bytes are touched too, and it is written afterwards.
pub fn write_second(line: FixedLine, p: Pixel, destination: &mut [u8], i: usize)
    requires { i + 5 < length destination.old }
    ensures { WrittenFrom destination.old destination.new i (i + 3) (bytes_of (each_sample (sample_at line) p ∷ [])) }
{
    write_sample(line.parts_at(p.b), destination, i + 2);
    write_sample(line.parts_at(p.g), destination, i + 1);
    write_sample(line.parts_at(p.r), destination, i);
}

// Writes the pixel at byte i, moved along its line. Stores of four bytes, as above, would touch the pixel before it.
pub fn write_pixel(line: FixedLine, p: Pixel, destination: &mut [u8], i: usize)
    requires { i + 2 < length destination.old }
    ensures { WrittenFrom destination.old destination.new i i (bytes_of (each_sample (sample_at line) p ∷ [])) }
{
    destination[i + 2] = line.sample_at(p.b);
    destination[i + 1] = line.sample_at(p.g);
    destination[i] = line.sample_at(p.r);
}
