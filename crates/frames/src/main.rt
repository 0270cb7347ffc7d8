// The reference frames of document 01. The starred ones are proved: specs/Starred.antt. This program runs the others and prints what
// the calls give; the file stdout beside src/ holds what that must be. The one for `balance` is run by that program itself.
#![tactic(auto)]

ghost use Rattle.std.specs.Prelude.{◌≡◌, ◌≤◌, ◌==◌, count_by, length, not};
ghost use Rattle.std.specs.List.{take_while};
ghost use Rattle.pixel.specs.Move.{intensity};
ghost use Rattle.pixel.specs.Strip.{pixels_of, pixel_from};
ghost use Rattle.frames.specs.Inner.{tones_of};

use dial::Dial;
use pixel::Pixel;
use shot::Shot;

// The bytes of a strip with one pixel for each of the 766 intensities.
const EACH_INTENSITY: usize = 2298;

// Where the pixel of intensity 300 begins in that strip.
const AT_300: usize = 900;

// The bytes of a strip of 4,095 pixels, and how many such strips have 16,777,215 pixels.
const LONG_STRIP: usize = 12285;

const LONG_STRIPS: u64 = 4097;

// A single move, on a line of its own: what it takes, then what it hands back.
fn print_move(rt: &impl Print, method: u32, p: Pixel, target: u32) {
    let (number, q) = pixel::move_answer(pixel::move_one(method, p, target));
    let _ = println!(rt;
        "move by method {method} of {} {} {} to {target}: number {number}, pixel {} {} {}",
        p.r, p.g, p.b, q.r, q.g, q.b
    );
}

// A pixel of intensity s: red is filled first, then green, then blue.
fn pixel_of_intensity(s: usize) -> Pixel
    requires { s ≤ 765 }
    ensures { intensity result ≡ s }
{
    let r = s.min(255);
    let g = (s - r).min(255);
    let b = s - r - g;
    Pixel {
        r: r as u8,
        g: g as u8,
        b: b as u8,
    }
}

// Such a pixel for each intensity, 0 to 765, in order.
fn pixel_of_each_intensity() -> [u8; EACH_INTENSITY] {
    let mut strip = [0u8; EACH_INTENSITY];
    let (pixels, _) = strip.as_chunks_mut::<3>();
    for (s, pixel) in pixels.iter_mut().enumerate() {
        *pixel = <[u8; 3]>::from(pixel_of_intensity(s));
    }
    strip
}

// How a coloured strip came out: its black pixels, its white ones, and the pixels before the first white one.
#[derive(Clone, Copy)]
struct Tones {
    black: usize,
    white: usize,
    before: usize,
}

// The intensity of a pixel of three bytes.
fn intensity_of(pixel: &[u8; 3]) -> usize
    ensures { result ≡ intensity (pixel_from pixel.now 0) }
{
    Pixel::from(*pixel).intensity()
}

// How many of the pixels have the intensity s.
fn count_of(pixels: &[[u8; 3]], s: usize) -> usize
    ensures { result ≡ count_by (λ p. intensity (pixel_from p 0) == s) pixels.now }
{
    pixels.iter().filter(|p| intensity_of(p) == s).count()
}

// How many of them stand before the first white one.
fn before_white(pixels: &[[u8; 3]]) -> usize
    ensures { result ≡ length (take_while (λ p. not (intensity (pixel_from p 0) == 765)) pixels.now) }
{
    pixels.iter().take_while(|p| intensity_of(p) != 765).count()
}

// How a strip came out.
#[tactic(auto, using(std::proofs::lemmas::Bool::Decides::nat_tests, crate::proofs::Counting::tones_counted))]
fn tones_of(strip: &[u8]) -> Tones
    ensures { result ≡ tones_of (pixels_of strip.now) }
{
    let (pixels, _) = strip.as_chunks::<3>();
    Tones {
        black: count_of(pixels, 0),
        white: count_of(pixels, 765),
        before: before_white(pixels),
    }
}

// A shot of three pixels of intensity 300, fixed by a choice, colours a pixel of each intensity by method 1 at the full balance. As
// they are filled, those of intensity 1 to 510 come out black for entry 0 only, and those of intensity 255 to 764 white for entry 765
// only: so the strip shows where the curve, but for its ends, is 0 and where it is 765. A pixel's place in the strip is its intensity,
// so the pixels before the first white one give the intensity from which on they are white, and the pixel at 300 has what the shot's own
// intensity becomes. All of it stands on a line of its own.
fn print_flat_shot(rt: &impl Print, choice: u32) {
    let measured = Shot::open().measure(&[100, 100, 100, 50, 100, 150, 255, 45, 0]);
    let fixed = measured.shot.fix(choice);
    let source = pixel_of_each_intensity();
    // a place that the call did not write would be neither black nor white
    let mut destination = [1u8; EACH_INTENSITY];
    let coloured = fixed
        .shot
        .colour(1, Dial::Mix(1.0), &source, &mut destination);
    let tones = tones_of(&destination);
    let _ = println!(rt;
        "flat shot of sum 300 by choice {choice}: numbers {} {} {}, black {}, pixel {} {} {} at 300, white {}, first white {}",
        measured.number,
        fixed.number,
        coloured.number,
        tones.black,
        destination[AT_300],
        destination[AT_300 + 1],
        destination[AT_300 + 2],
        tones.white,
        tones.before
    );
}

// Measures a strip, on a line of its own: its length, then the number. Hands back the next shot.
fn print_measure(rt: &impl Print, shot: Shot, strip: &[u8]) -> Shot {
    let answer = shot.measure(strip);
    let _ = println!(rt;
        "measure of length {}: number {}",
        strip.len(),
        answer.number
    );
    answer.shot
}

// The long strips fill a new shot up to one pixel below its limit, and a line says how many of them it accepted. (A loop, since each strip
// goes to the shot that the one before has left.) Then come two pixels, one, and one more.
fn print_limit(rt: &impl Print) {
    let strip = [100u8; LONG_STRIP];
    let mut shot = Shot::open();
    let mut accepted = 0;
    for _ in 0..LONG_STRIPS {
        let answer = shot.measure(&strip);
        shot = answer.shot;
        accepted += u64::from(answer.number == 0);
    }
    let _ = println!(rt; "measure of length {LONG_STRIP}: accepted {accepted} times");
    let shot = print_measure(rt, shot, &[1, 2, 3, 4, 5, 6]);
    let shot = print_measure(rt, shot, &[1, 2, 3]);
    print_measure(rt, shot, &[1, 2, 3]);
}

fn main(rt: HostRuntime) {
    let p = Pixel {
        r: 100,
        g: 150,
        b: 200,
    };
    // Target 765 moves, 766 is refused 9.
    print_move(&rt, 1, p, 765);
    print_move(&rt, 1, p, 766);
    print_move(&rt, 2, p, 765);
    print_move(&rt, 2, p, 766);
    // The single move names 7 before 9.
    print_move(&rt, 3, p, 765);
    print_move(&rt, 3, p, 766);
    // All pixels of sum 300: entries 0 up to 299, 382 at 300 by the cube and 383 equalised, 765 from 301.
    print_flat_shot(&rt, 1);
    print_flat_shot(&rt, 2);
    // Length 3 is measured, 4 refused 2.
    print_measure(&rt, Shot::open(), &[1, 2, 3]);
    print_measure(&rt, Shot::open(), &[1, 2, 3, 4]);
    // From N = 16,777,215 one more pixel is measured, two are refused 3.
    print_limit(&rt);
}
