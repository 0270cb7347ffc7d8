// The whole job of one still picture (document 01, "Frames from a file"): from the bytes of a file to the bytes to write.
#![tactic(auto)]

ghost use Rattle.std.specs.Prelude.{◌≡◌, ◌≤◌, length, replicate, IfOk};
ghost use Rattle.refusal.specs.Numbers.{refusal_number, number_in};
ghost use Rattle.refusal.specs.Refusal.{first_of};
ghost use Rattle.text.specs.Text.{Writes};
ghost use Rattle.curve.specs.Curve.{EntriesInRange};
ghost use Rattle.still.specs.Inner.{OwnCurve, PictureFits, PictureOf};
ghost use Rattle.still.specs.Limits.{input_limit};
ghost use Rattle.still.specs.Still.{picture, refusal_line, sample_checks, file_number, output_limit, outcome};

use curve::Choice;
use lines::Targets;
use netpbm::Header;
use pixel::Method;
use refusal::Refusal;
use text::Writer;

// One byte more than the largest accepted file: so many bytes of a file are enough. (An area goes by `as`: no From makes a usize of it.)
const INPUT_LIMIT: usize = netpbm::HEADER_LIMIT + 3 * netpbm::AREA_LIMIT as usize + 1;

// An output of so many bytes has room for every answer. (The area goes by `as` here too.)
const OUTPUT_LIMIT: usize = netpbm::WRITTEN_LIMIT + 3 * netpbm::AREA_LIMIT as usize;

// Room for the bytes of a file that are read. (Two functions, and not one over any length, so that a caller names no limit and
// each contract says its own.)
pub fn input_buffer() -> [u8; INPUT_LIMIT]
    ensures { result ≡ replicate input_limit 0 }
{
    [0; INPUT_LIMIT]
}

// Room for every answer.
pub fn output_buffer() -> [u8; OUTPUT_LIMIT]
    ensures { result ≡ replicate output_limit 0 }
{
    [0; OUTPUT_LIMIT]
}

// A picture that a file holds: what its header says, its samples, and the curve that is their own.
#[derive(Clone, Copy)]
struct Picture<'a> {
    header: Header,
    samples: &'a [u8],
    curve: [u16; 766],
    ghost fits: { PictureFits header.width header.height (length samples.now) },
    ghost own_curve: { OwnCurve samples.now curve },
    ghost in_range: { EntriesInRange curve },
}

// File 15, 16, by how many samples are due and how many bytes are present.
fn check_samples(due: usize, present: usize) -> Result<(), Refusal>
    ensures { number_in result ≡ first_of (sample_checks due present) }
{
    if present < due {
        return Err(Refusal::TooFewSamples);
    }
    if due < present {
        return Err(Refusal::BytesAfterSamples);
    }
    Ok(())
}

// Reads a file: its picture, or the first of file 12, 13, 14, 15, 16 that applies.
fn read_picture(file: &[u8]) -> Result<Picture<'_>, Refusal>
    ensures number { number_in result ≡ file_number file.now }
    ensures parts { IfOk result (λ image. PictureOf file.now image.header image.samples.now) }
{
    let header = netpbm::read_header(file)?;
    let samples = &file[header.start..];
    // by `as`: no From makes a usize of a u64
    check_samples(3 * header.area() as usize, samples.len())?;
    let curve = strip_curve::curve_of_strip(Choice::Cube, samples)?;
    Ok(Picture {
        header,
        samples,
        curve,
    })
}

// Writes a refusal at the start of the output, and hands back how many bytes it has: a length, for the reason at `balance_file`.
#[tactic(auto, using(crate::proofs::Sizes::refusal_size))]
fn write_refusal(refusal: Refusal, output: &mut [u8]) -> usize
    requires { length (refusal_line (refusal_number refusal)) ≤ length output.old }
    ensures { Writes 0 (refusal_line (refusal_number refusal)) output.old result output.new }
{
    let number = u32::from(refusal);
    let mut writer = Writer::new(output);
    writer.text(b"refused ");
    writer.number(u64::from(number));
    writer.text(b"\n");
    writer.end
}

// Writes a picture at the start of the output: a header, and the samples coloured by their own curve and method 2. Hands back how many
// bytes it has, for the same reason.
fn write_picture(image: &Picture, output: &mut [u8]) -> usize
    requires { output_limit ≤ length output.old }
    ensures { Writes 0 (picture image.now.header.width image.now.header.height image.now.samples.now) output.old result output.new }
{
    let first = netpbm::write_header(image.header.width, image.header.height, output);
    let end = first + image.samples.len();
    let targets = Targets {
        entries: &image.curve,
    };
    colouring::colour_strip(
        targets,
        Method::YangLee,
        image.samples,
        &mut output[first..end],
    );
    end
}

// The whole job: the answer to a file, at the start of the output. Hands back how many of its bytes are to be written; an output shorter
// than `OUTPUT_LIMIT` stays as it was, and none is. (A part of the output in place of a length would leave unsaid what the rest holds.)
pub fn balance_file(file: &[u8], output: &mut [u8]) -> usize
    ensures { outcome file.now output.old ≡ record { size = result; output = output.new } }
{
    if output.len() < OUTPUT_LIMIT {
        return 0;
    }
    match read_picture(file) {
        Ok(image) => write_picture(&image, output),
        Err(refusal) => write_refusal(refusal, output),
    }
}
