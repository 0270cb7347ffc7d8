// Measuring: a strip's pixels, counted by their intensities (document 01, "Measuring").
#![tactic(auto)]

ghost use Rattle.std.specs.Prelude.{◌≡◌, [], ◌∷◌, length};
ghost use Rattle.tables.specs.Table.{tabulate, at};
ghost use Rattle.pixel.specs.Strip.{pixels_of, pixel_from};
ghost use Rattle.measuring.specs.Histogram.{with_pixels};
ghost use Rattle.measuring.specs.Inner.{RoomFor, PixelFits, CountsFit, arrays_pixels, sum_of_four, FourFit};

use pixel::Pixel;
use std::array;

// At most so many pixels to a shot.
pub const PIXEL_LIMIT: usize = 16777216;

// Counts a pixel of three bytes.
#[tactic(auto, using(std::proofs::lemmas::Bool::Decides::nat_tests, crate::proofs::Counting::one_more))]
fn count_pixel(counts: &mut [u32; 766], pixel: [u8; 3])
    requires { PixelFits counts.old }
    ensures { counts.new ≡ with_pixels counts.old (pixel_from pixel 0 ∷ []) }
{
    counts[Pixel::from(pixel).intensity()] += 1;
}

// The counts with these pixels added, one after the other.
fn count_rest(start: [u32; 766], pixels: &[[u8; 3]]) -> [u32; 766]
    requires { RoomFor (length pixels.now) (at start) }
    ensures { result ≡ with_pixels start (arrays_pixels pixels.now) }
{
    let mut counts = start;
    for pixel in pixels {
        count_pixel(&mut counts, *pixel);
    }
    counts
}

// Four histograms added up.
fn added(first: [u32; 766], second: [u32; 766], third: [u32; 766], fourth: [u32; 766]) -> [u32; 766]
    requires { FourFit first second third fourth }
    ensures { result ≡ tabulate (sum_of_four first second third fourth) 766 }
{
    array::from_fn(|s| first[s] + second[s] + third[s] + fourth[s])
}

// The counts with the strip's pixels added. Four histograms take the pixels in turn, so that where equal pixels follow each other, no
// count waits for the store of the one before. (They have four names and are no array: of an array the proof would have to show at each of
// the four calls that the other three histograms stay.)
pub fn count_strip(start: [u32; 766], strip: &[u8]) -> [u32; 766]
    requires { CountsFit start strip.now }
    ensures { result ≡ with_pixels start (pixels_of strip.now) }
{
    let mut first = start;
    let mut second = [0u32; 766];
    let mut third = [0u32; 766];
    let mut fourth = [0u32; 766];
    let (pixels, _) = strip.as_chunks::<3>();
    let (fours, rest) = pixels.as_chunks::<4>();
    for [a, b, c, d] in fours {
        count_pixel(&mut first, *a);
        count_pixel(&mut second, *b);
        count_pixel(&mut third, *c);
        count_pixel(&mut fourth, *d);
    }
    count_rest(added(first, second, third, fourth), rest)
}
