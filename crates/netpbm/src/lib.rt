// The header of a Netpbm P6 image, read and written (document 01, "Frames from a file"; document 02, "Comments in
// frames"). No other crate knows its form.
#![tactic(auto)]

ghost use Rattle.std.specs.Prelude.{◌≡◌, ◌+◌, ◌*◌, ◌≤◌, false, drop, length};
ghost use Rattle.tables.specs.Table.{at};
ghost use Rattle.text.specs.Text.{Writes};
ghost use Rattle.scanning.specs.Scanning.{starts_comment, in_class, run_length};
ghost use Rattle.scanning.specs.declared.Class.TheVariants.{Comment};
ghost use Rattle.netpbm.specs.Header.{white_length, field_at, judged, header_in, header_of, header_text};

use refusal::Refusal;
use scanning::Class;
use text::Writer;

// A header has at most so many bytes, its comments included.
pub const HEADER_LIMIT: usize = 512;

// Width times height is at most so much.
pub const AREA_LIMIT: u64 = 16384;

// A written header has at most so many bytes.
pub const WRITTEN_LIMIT: usize = 19;

// A number of a header has at most so many digits.
const DIGIT_LIMIT: usize = 5;

// What a header says: the picture's width and height, and where in the file its samples start.
#[derive(Clone, Copy)]
pub struct Header {
    pub width: u32,
    pub height: u32,
    pub start: usize,
}

impl Header {
    // Width times height. It may have more than 32 bits: 99999 times 99999 does.
    pub fn area(self) -> u64
        ensures { result ≡ self.width * self.height }
    {
        u64::from(self.width) * u64::from(self.height)
    }
}

// A field of the header: its number, and the place after it. (`words::Found` is alike. One type for both would want a crate below both, for
// its two fields alone.)
#[derive(Clone, Copy)]
struct Field {
    number: u32,
    end: usize,
}

// Whether a comment begins at `place`.
#[tactic(auto, using(crate::proofs::Bytes::byte_is))]
fn comment_at(bytes: &[u8], place: usize) -> bool
    ensures { result ≡ starts_comment (at bytes.now place) }
{
    bytes.get(place) == Some(&b'#')
}

// The place of the byte that ends the comment at `place`: LF or CR, which is white space too. Where none does, the end of the bytes.
fn comment_end(bytes: &[u8], place: usize) -> usize
    ensures { result ≡ place + run_length (in_class Comment) (drop place bytes.now) }
{
    scanning::run_end(Class::Comment, bytes, place)
}

// The place after the white space that stands at `place`, comments included. It goes on by runs: the byte that ends a comment is left for
// the run of white-space bytes after it.
fn white_end(bytes: &[u8], place: usize) -> usize
    ensures { result ≡ place + white_length false (drop place bytes.now) }
{
    let mut end = scanning::run_end(Class::Space, bytes, place);
    // not a `for`: how far a comment goes is not known beforehand
    while comment_at(bytes, end) {
        end = scanning::run_end(Class::Space, bytes, comment_end(bytes, end));
    }
    end
}

// The field that begins at `place`.
fn read_field(bytes: &[u8], place: usize) -> Result<Field, Refusal>
    ensures { result ≡ field_at bytes.now place }
{
    let first = white_end(bytes, place);
    let end = scanning::run_end(Class::Digit, bytes, first);
    if first == place || end == first || DIGIT_LIMIT < end - first {
        return Err(Refusal::HeaderMalformed);
    }
    let number = text::read_decimal(&bytes[first..end]) as u32;
    Ok(Field { number, end })
}

// The answer for a header of the right form.
fn judge(header: Header, largest: u32) -> Result<Header, Refusal>
    ensures { result ≡ judged header.width header.height largest header.start }
{
    if largest != 255 {
        return Err(Refusal::OtherLargestValue);
    }
    let pixels = header.area();
    if pixels == 0 || AREA_LIMIT < pixels {
        return Err(Refusal::AreaOutOfRange);
    }
    Ok(header)
}

// Reads a header that must end within these bytes.
#[tactic(auto, using(crate::proofs::Letters::letters_start, crate::proofs::Bytes::last_is, crate::proofs::Fields::last_decides), unfolding(crate::specs::Header::header_in))]
fn read_within(bytes: &[u8]) -> Result<Header, Refusal>
    ensures { result ≡ header_in bytes.now }
{
    if !bytes.starts_with(b"P6") {
        return Err(Refusal::HeaderMalformed);
    }
    let width = read_field(bytes, 2)?;
    let height = read_field(bytes, width.end)?;
    let largest = read_field(bytes, height.end)?;
    if !bytes
        .get(largest.end)
        .is_some_and(|b| scanning::is_space(*b))
    {
        return Err(Refusal::HeaderMalformed);
    }
    let header = Header {
        width: width.number,
        height: height.number,
        start: largest.end + 1,
    };
    judge(header, largest.number)
}

// Reads the header of a file.
#[tactic(auto, using(std::proofs::lemmas::Bool::Decides::nat_tests, std::proofs::lemmas::List::take_min))]
pub fn read_header(file: &[u8]) -> Result<Header, Refusal>
    ensures { result ≡ header_of file.now }
{
    read_within(&file[..HEADER_LIMIT.min(file.len())])
}

// Writes a header at the start of the output, and hands back how many bytes it has.
// (Not a `Header`, since where samples start is not written; and a part of the output in place of a length would leave unsaid what the rest
// holds.)
#[tactic(auto, using(crate::proofs::Written::header_size))]
pub fn write_header(width: u32, height: u32, output: &mut [u8]) -> usize
    requires { length (header_text width height) ≤ length output.old }
    ensures { Writes 0 (header_text width height) output.old result output.new }
{
    let mut writer = Writer::new(output);
    writer.text(b"P6\n");
    writer.number(u64::from(width));
    writer.text(b" ");
    writer.number(u64::from(height));
    writer.text(b"\n255\n");
    writer.end
}
