// A curve at the host's boundary (document 01, "The panel's host"): written as bytes, read back, and the rule by which one is accepted.
#![tactic(auto)]

ghost use Rattle.std.specs.Prelude.{◌≡◌, IfOk};
ghost use Rattle.refusal.specs.Numbers.{number_in};
ghost use Rattle.refusal.specs.Refusal.{first_of};
ghost use Rattle.curve.specs.Curve.{EntriesInRange};
ghost use Rattle.curve_bytes.specs.CurveBytes.{curve_bytes, curve_entries, none_falls, keeps_curve_rule, bytes_checks};

use refusal::Refusal;
use std::array;

// A curve travels as so many bytes.
pub const CURVE_LENGTH: usize = 1532;

// Writes a curve out: entry 0 first, two bytes an entry, low byte first.
pub fn write_curve(curve: &[u16; 766], bytes: &mut [u8; CURVE_LENGTH])
    ensures { bytes.new ≡ curve_bytes curve.now }
{
    // The contract of `as_chunks_mut` leaves unsaid what the slice holds at the end, and `array::from_fn` or an array's `map` takes many
    // times as long.
    for (k, entry) in curve.iter().enumerate() {
        let [low, high] = entry.to_le_bytes();
        bytes[2 * k] = low;
        bytes[2 * k + 1] = high;
    }
}

// Reads a curve back.
pub fn read_curve(bytes: &[u8; CURVE_LENGTH]) -> [u16; 766]
    ensures { result ≡ curve_entries bytes.now }
{
    let (pairs, _) = bytes.as_chunks::<2>();
    array::from_fn(|k| u16::from_le_bytes(pairs[k]))
}

// Whether no entry is less than the one before. (Not `is_sorted`, which stops where one is: with no way out before the end the compiler
// takes many entries at a time.)
fn none_falls(curve: &[u16; 766]) -> bool
    ensures { result ≡ none_falls 0 curve.now }
{
    let mut before = 0;
    let mut rises = true;
    for entry in curve {
        rises &= before <= *entry;
        before = *entry;
    }
    rises
}

// Whether the entries keep the rule by which a curve is accepted. Where the last is 765 and none falls, none exceeds 765.
#[tactic(auto, unfolding(crate::specs::CurveBytes::keeps_curve_rule))]
pub fn keeps_curve_rule(curve: &[u16; 766]) -> bool
    ensures { result ≡ keeps_curve_rule curve.now }
{
    curve[0] == 0 && curve[765] == 765 && none_falls(curve)
}

// The entries of a curve that a caller hands in as bytes. Refused: 10, 11.
#[tactic(auto, using(crate::proofs::CurveBytes::accepted_in_range))]
pub fn accepted_entries(curve: &[u8]) -> Result<[u16; 766], Refusal>
    ensures number { number_in result ≡ first_of (bytes_checks curve.now) }
    ensures entries { IfOk result (λ entries. entries ≡ curve_entries curve.now) }
    ensures in_range { IfOk result EntriesInRange }
{
    let Some(curve) = curve.as_array() else {
        return Err(Refusal::CurveLengthWrong);
    };
    let entries = read_curve(curve);
    if !keeps_curve_rule(&entries) {
        return Err(Refusal::CurveRuleBroken);
    }
    Ok(entries)
}
