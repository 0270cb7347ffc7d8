// Moving a pixel to a target intensity (document 01, "Moving a pixel").
#![tactic(auto)]

ghost use Rattle.std.specs.Prelude.{◌≡◌, [], ◌∷◌, true, ◌+◌, ◌-◌, ◌*◌, ◌<◌, ◌≤◌, length};
ghost use Rattle.rounding.specs.Near.{near};
ghost use Rattle.pixel.specs.Methods.{MethodNamed};
ghost use Rattle.pixel.specs.Lines.{up_from, down_from, naik_murthy_line, yang_lee_line, line_of, on_line};
ghost use Rattle.pixel.specs.Move.{intensity, moved_sample, moved};
ghost use Rattle.pixel.specs.MoveOne.{move_answer, moved_one};
ghost use Rattle.pixel.specs.Strip.{pixel_from, bytes_of};
ghost use Rattle.pixel.specs.Inner.{AtMostWhite};
ghost use Rattle.pixel.specs.Moving.{Moving, PixelSample, MovingSample};

use refusal::Refusal;

// The two methods of source 004: 2.1 and 2.2.
#[derive(Clone, Copy, Debug, PartialEq, Eq)]
pub enum Method {
    NaikMurthy,
    YangLee,
}

impl TryFrom<u32> for Method {
    type Error = Refusal;

    ghost try_from_gives = { MethodNamed };

    fn try_from(number: u32) -> Result<Method, Refusal> {
        match number {
            1 => Ok(Method::NaikMurthy),
            2 => Ok(Method::YangLee),
            _ => Err(Refusal::NoSuchMethod),
        }
    }
}

// How a line counts its samples: up from black, or down from white.
#[derive(Clone, Copy, Debug, PartialEq, Eq)]
pub enum Direction {
    Up,
    Down,
}

// The line along which the samples of all pixels of one intensity move to one target: a sample at the distance x from `start` goes to
// near(x × numerator / denominator), counted up from black or down from white.
#[derive(Clone, Copy, Debug, PartialEq, Eq)]
pub struct Line {
    pub direction: Direction,
    pub start: u64,
    pub numerator: u64,
    pub denominator: u64,
}

// Three samples, 0 to 255 each.
#[derive(Clone, Copy, Debug, PartialEq, Eq)]
pub struct Pixel {
    pub r: u8,
    pub g: u8,
    pub b: u8,
}

impl From<[u8; 3]> for Pixel {
    ghost from_gives = { λ bytes pixel. pixel ≡ pixel_from bytes 0 };

    fn from(bytes: [u8; 3]) -> Pixel {
        let [r, g, b] = bytes;
        Pixel { r, g, b }
    }
}

impl From<Pixel> for [u8; 3] {
    ghost from_gives = { λ pixel bytes. bytes ≡ bytes_of (pixel ∷ []) };

    fn from(pixel: Pixel) -> [u8; 3] {
        [pixel.r, pixel.g, pixel.b]
    }
}

impl Pixel {
    // All samples are 0.
    pub const BLACK: Pixel = Pixel { r: 0, g: 0, b: 0 };

    // The sum of the samples. The contract hands its range on, so that it is a place in a table of 766.
    pub fn intensity(self) -> usize
        ensures { (result ≡ intensity self) × (result ≤ 765) }
    {
        usize::from(self.r) + usize::from(self.g) + usize::from(self.b)
    }
}

// near(x × n / d), the product rounded once. (x, n and d are numbers with a clause here and in the next functions: a type for the three
// would be taken apart at once.)
fn rounded_product(x: u64, n: u64, d: u64) -> u64
    requires { AtMostWhite x n d }
    ensures { result ≡ near (x * n) d }
{
    rounding::rounded(x * n, d)
}

// A number of at most 255 as a sample. (Behind a name, so that no caller proves again that it fits.)
fn byte(x: u64) -> u8
    requires { x ≤ 255 }
    ensures { result ≡ x }
{
    x as u8
}

// near(x × n / d), as a sample.
#[tactic(auto, using(crate::proofs::Lines::at_most_255))]
fn scaled(x: u64, n: u64, d: u64) -> u8
    requires { AtMostWhite x n d }
    ensures { result ≡ near (x * n) d }
{
    byte(rounded_product(x, n, d))
}

// The same, counted down from white.
fn scaled_from_white(x: u64, n: u64, d: u64) -> u8
    requires { AtMostWhite x n d }
    ensures { result ≡ 255 - near (x * n) d }
{
    255 - scaled(x, n, d)
}

// Counted up from black: 0 at the sample `start`, and n / d more with each step above it. (It and `down_from` are two names, and not one
// function with a direction, so that lines read as in the definitions.)
fn up_from(start: u64, n: u64, d: u64) -> Line
    ensures { result ≡ up_from start n d }
{
    Line {
        direction: Direction::Up,
        start,
        numerator: n,
        denominator: d,
    }
}

// Counted down from white: 255 at the sample `start`, and n / d less with each step below it.
fn down_from(start: u64, n: u64, d: u64) -> Line
    ensures { result ≡ down_from start n d }
{
    Line {
        direction: Direction::Down,
        start,
        numerator: n,
        denominator: d,
    }
}

// Method 1's line for pixels of intensity s that are moved to the target f. (Here and below s and f are numbers with a clause, and no
// type of their own, so that a line reads as in the rules.)
#[tactic(auto, using(std::proofs::lemmas::Bool::Decides::nat_tests), unfolding(crate::specs::Lines::naik_murthy_line))]
fn naik_murthy_line(s: u64, f: u64) -> Line
    requires { Moving s f }
    ensures { result ≡ naik_murthy_line s f }
{
    if f <= s {
        return up_from(0, f, s);
    }
    down_from(255, 765 - f, 765 - s)
}

// Method 2's line for dark pixels, s at most 255.
#[tactic(auto, using(std::proofs::lemmas::Bool::Decides::nat_tests), unfolding(crate::specs::Lines::yang_lee_line))]
fn yang_lee_dark_line(s: u64, f: u64) -> Line
    requires { Moving s f × (s ≤ 255) }
    ensures { result ≡ yang_lee_line s f }
{
    if f <= 255 {
        return up_from(0, f, s);
    }
    down_from(s, 765 - f, 2 * s)
}

// Method 2's line for bright pixels, s above 510.
#[tactic(auto, using(std::proofs::lemmas::Bool::Decides::nat_tests), unfolding(crate::specs::Lines::yang_lee_line))]
fn yang_lee_bright_line(s: u64, f: u64) -> Line
    requires { Moving s f × (510 < s) }
    ensures { result ≡ yang_lee_line s f }
{
    let t = 765 - s;
    if f <= 510 {
        return up_from(s - 510, f, 2 * t);
    }
    down_from(255, 765 - f, t)
}

// Method 2's line: the pixel's own intensity decides the case, and not the target.
#[tactic(auto, using(std::proofs::lemmas::Bool::Decides::nat_tests), unfolding(crate::specs::Lines::yang_lee_line))]
fn yang_lee_line(s: u64, f: u64) -> Line
    requires { Moving s f }
    ensures { result ≡ yang_lee_line s f }
{
    if s <= 255 {
        return yang_lee_dark_line(s, f);
    }
    if s <= 510 {
        return naik_murthy_line(s, f);
    }
    yang_lee_bright_line(s, f)
}

// The line of pixels of intensity s, neither black nor white, that are moved to the target f.
pub fn line_of(method: Method, s: u64, f: u64) -> Line
    requires { Moving s f }
    ensures { result ≡ line_of method s f }
{
    match method {
        Method::NaikMurthy => naik_murthy_line(s, f),
        Method::YangLee => yang_lee_line(s, f),
    }
}

// A sample of such a pixel, moved along the line.
fn along_line(method: Method, s: u64, f: u64, c: u64) -> u8
    requires { MovingSample s f c }
    ensures { result ≡ on_line (line_of method s f) c }
{
    let line = line_of(method, s, f);
    match line.direction {
        Direction::Up => scaled(c - line.start, line.numerator, line.denominator),
        Direction::Down => scaled_from_white(line.start - c, line.numerator, line.denominator),
    }
}

// One sample of a moved pixel. Black and white stay, and neither method divides by zero.
#[tactic(auto, using(std::proofs::lemmas::Bool::Decides::nat_tests), unfolding(crate::specs::Move::moved_sample))]
fn moved_sample(method: Method, s: u64, f: u64, c: u64) -> u8
    requires { PixelSample s f c }
    ensures { result ≡ moved_sample method s f c }
{
    if s == 0 {
        return 0;
    }
    if s == 765 {
        return 255;
    }
    along_line(method, s, f, c)
}

// The pixel whose first byte stands at i. (A run and a place in it, since `colouring` goes by places, and says why.)
pub fn read_pixel(strip: &[u8], i: usize) -> Pixel
    requires { i + 2 < length strip.now }
    ensures { result ≡ pixel_from strip.now i }
{
    Pixel::from([strip[i], strip[i + 1], strip[i + 2]])
}

// The pixel, moved to a target of at most 765.
#[tactic(auto, unfolding(crate::specs::Move::moved))]
fn move_pixel(method: Method, pixel: Pixel, target: u32) -> Pixel
    requires { target ≤ 765 }
    ensures { result ≡ moved method pixel target }
{
    // no From makes a u64 of a usize
    let s = pixel.intensity() as u64;
    let f = u64::from(target);
    Pixel {
        r: moved_sample(method, s, f, u64::from(pixel.r)),
        g: moved_sample(method, s, f, u64::from(pixel.g)),
        b: moved_sample(method, s, f, u64::from(pixel.b)),
    }
}

// Moves one pixel to a target intensity. Refused: 7, the method is not 1 or 2; 9, the target is above 765. (The method comes as a number,
// so that any other can be refused.)
#[tactic(auto, unfolding(crate::specs::MoveOne::moved_one))]
pub fn move_one(method: u32, pixel: Pixel, target: u32) -> Result<Pixel, Refusal>
    ensures { move_answer result ≡ moved_one method pixel target }
{
    let method = Method::try_from(method)?;
    if 765 < target {
        return Err(Refusal::TargetTooLarge);
    }
    Ok(move_pixel(method, pixel, target))
}

// What a single move's answer is as a number and a pixel: a refused move's pixel is black.
pub fn move_answer(moved: Result<Pixel, Refusal>) -> (u32, Pixel)
    ensures { record { number = result.0; pixel = result.1 } ≡ move_answer moved }
{
    let number = refusal::number_in(&moved);
    (number, moved.unwrap_or(Pixel::BLACK))
}
