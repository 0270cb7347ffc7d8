// Colouring a strip by a curve and a method (document 01, "Moving a pixel"), along the lines of its intensities, and under a setting of the
// dial (document 02, wish 1).
#![tactic(auto)]

ghost use Rattle.std.specs.Prelude.{◌≡◌, ◌≤◌, replicate, IfOk};
ghost use Rattle.refusal.specs.Numbers.{number_in};
ghost use Rattle.refusal.specs.Refusal.{first_of};
ghost use Rattle.lines.specs.Line.{line_at};
ghost use Rattle.pixel.specs.Move.{intensity};
ghost use Rattle.settings.specs.Setting.{SettingInRange};
ghost use Rattle.settings.specs.declared.Setting.TheVariants.{Mix};
ghost use Rattle.colouring.specs.Colouring.{size_checks, coloured_strip, coloured_under};
ghost use Rattle.colouring.specs.Inner.{SameSize, along_lines};

use lines::{FixedLine, Targets};
use pixel::{Method, Pixel};
use refusal::Refusal;
use settings::Setting;

// 2, 8: the first that applies to the runs that a colouring brings.
pub fn check_sizes(source: &[u8], destination: &[u8]) -> Result<(), Refusal>
    ensures number { number_in result ≡ first_of (size_checks source.now destination.now) }
    ensures sizes { IfOk result (λ _. SameSize source.now destination.now) }
{
    if source.len() % 3 != 0 {
        return Err(Refusal::NotWholePixels);
    }
    if destination.len() != source.len() {
        return Err(Refusal::LengthsDiffer);
    }
    Ok(())
}

// The line of a pixel's intensity. It is read field by field: read whole, it would be one number that is then split.
fn line_for(lines: &[FixedLine; 766], p: Pixel) -> FixedLine
    ensures { result ≡ line_at lines.now (intensity p) }
{
    let s = p.intensity();
    FixedLine {
        slope: lines[s].slope,
        offset: lines[s].offset,
    }
}

// Every pixel of the source, moved along the line of its intensity, at the same place of the destination.
fn colour_by_lines(lines: &[FixedLine; 766], source: &[u8], destination: &mut [u8])
    requires { SameSize source.now destination.old }
    ensures { destination.new ≡ along_lines lines.now source.now }
{
    // Pixels are taken in pairs. A zip of chunks would leave the bytes written unknown to the proof.
    for k in 0..source.len() / 6 {
        let i = 6 * k;
        // Both are read before either is written. Writing the second also stores into the first one's place, and where source and
        // destination have the same offset in a page, a later read of the source there would wait for that store.
        let p = pixel::read_pixel(source, i);
        let q = pixel::read_pixel(source, i + 3);
        let second = line_for(lines, q);
        writing::write_second(second, q, destination, i);
        let first = line_for(lines, p);
        writing::write_pixel(first, p, destination, i);
    }
    if source.len() % 6 == 0 {
        return;
    }
    let last = source.len() - 3;
    let p = pixel::read_pixel(source, last);
    writing::write_pixel(line_for(lines, p), p, destination, last);
}

// Every pixel of the source, moved to the curve's entry for its intensity, at the same place of the destination. Here and below `SameSize`
// stays a clause: with the two runs in a struct each function would have to say, in a clause in its place, that the destination in it stays
// the one that was lent. Targets and method are no struct either: hold takes the method to targets of its own.
#[tactic(auto, using(crate::proofs::Lines::lines_colour))]
pub fn colour_strip(targets: Targets, method: Method, source: &[u8], destination: &mut [u8])
    requires { SameSize source.now destination.old }
    ensures { destination.new ≡ coloured_strip method targets.entry.entries.now source.now }
{
    colour_by_lines(&lines::lines_of(targets, method), source, destination);
}

// The full balance of every pixel of the source, mixed with the source by k / 256. (A number with a clause, as in `mix_bytes`: a type with
// the bound would be made here of the setting's number, and taken apart there.)
#[tactic(auto, using(crate::proofs::Strips::mix_mixes, crate::proofs::Strips::amount_one_is_full_balance))]
fn colour_mixed(k: u32, targets: Targets, method: Method, source: &[u8], destination: &mut [u8])
    requires k_bound { k ≤ 256 }
    requires same_size { SameSize source.now destination.old }
    ensures { destination.new ≡ coloured_under (Mix k) method targets.entry.entries.now source.now }
{
    colour_strip(targets, method, source, destination);
    // At amount 1 the mix would leave it as it is.
    if k == settings::FULL {
        return;
    }
    settings::mix_bytes(k, source, destination);
}

// Every pixel of the source but black and white, moved to the intensity v: it stands in the place of every entry. (That is no tone curve, but
// black and white stay whatever their entries are.)
fn colour_held(v: u32, method: Method, source: &[u8], destination: &mut [u8])
    requires v_bound { v ≤ 765 }
    requires same_size { SameSize source.now destination.old }
    ensures { destination.new ≡ coloured_strip method (replicate 766 v) source.now }
{
    let held = [v as u16; 766];
    let targets = Targets { entries: &held };
    colour_strip(targets, method, source, destination);
}

// Every pixel of the source, coloured under a setting of the dial, at the same place of the destination.
#[tactic(auto, using(crate::proofs::Strips::off_copies, crate::proofs::Strips::held_strip))]
pub fn colour_under(
    setting: Setting,
    targets: Targets,
    method: Method,
    source: &[u8],
    destination: &mut [u8],
)
    requires setting_in_range { SettingInRange setting }
    requires same_size { SameSize source.now destination.old }
    ensures { destination.new ≡ coloured_under setting method targets.entry.entries.now source.now }
{
    match setting {
        Setting::Off => destination.copy_from_slice(source),
        Setting::Mix(k) => colour_mixed(k, targets, method, source, destination),
        Setting::Hold(v) => colour_held(v, method, source, destination),
    }
}
