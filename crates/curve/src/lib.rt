// The tone curve of a shot, from its histogram (document 01, "Fixing the curve").
#![tactic(auto)]

ghost use Rattle.std.specs.Prelude.{◌≡◌, ◌*◌, ◌^◌, ◌≤◌, ◌<◌};
ghost use Rattle.tables.specs.Table.{tabulate, at};
ghost use Rattle.targets.specs.Cube.{G};
ghost use Rattle.measuring.specs.Histogram.{NonDecreasing, cumulative};
ghost use Rattle.curve.specs.Choices.{ChoiceNamed};
ghost use Rattle.curve.specs.Curve.{share_count, full_count, share_at, equalised_entry, with_ends, tone_curve};
ghost use Rattle.curve.specs.Inner.{Plateau, Below, Bounding, HistogramOf, SharesFit, AimsFit};
ghost use Rattle.curve.specs.Nearest.{nearest_place};

use refusal::Refusal;
use std::array;

// The curve choices: the cube's (equation 14 of source 004) and the equalised one (equation 5), both by the house share.
#[derive(Clone, Copy, Debug, PartialEq, Eq)]
pub enum Choice {
    Cube,
    Equalised,
}

impl TryFrom<u32> for Choice {
    type Error = Refusal;

    ghost try_from_gives = { ChoiceNamed };

    fn try_from(number: u32) -> Result<Choice, Refusal> {
        match number {
            1 => Ok(Choice::Cube),
            2 => Ok(Choice::Equalised),
            _ => Err(Refusal::NoSuchChoice),
        }
    }
}

// Where an aim lies in a sequence that does not fall: `upper` is the first place that holds at least the aim, or 766, and `lower` the
// first that holds as much as the place before `upper`, since a sequence may stay level. Both are 0 where no place is below the aim.
#[derive(Clone, Copy)]
struct Bounds {
    lower: usize,
    upper: usize,
}

// A sequence that does not fall.
#[derive(Clone, Copy)]
struct NonFalling<'a> {
    values: &'a [u64; 766],
    ghost never_falls: { NonDecreasing (at values.now) },
}

impl NonFalling<'_> {
    // The bounds of an aim, from those of an aim that is no larger. So the bounds of many aims, in order, are found in one walk, where a
    // `partition_point` would search the sequence anew for each.
    fn bounds_from(self, aim: u64, from: Bounds) -> Bounds
        requires { Plateau self.values.now from.lower from.upper × Below self.values.now aim from.upper }
        ensures { Bounding self.entry.values.now aim result.lower result.upper }
    {
        let mut lower = from.lower;
        for upper in from.upper..766 {
            if aim <= self.values[upper] {
                return Bounds { lower, upper };
            }
            if self.values[lower] < self.values[upper] {
                lower = upper;
            }
        }
        Bounds { lower, upper: 766 }
    }

    // The smallest place at which the sequence lies nearest to the aim: one of the aim's bounds.
    #[tactic(auto, using(crate::proofs::Nearest::found_upper, crate::proofs::Nearest::found_lower))]
    fn nearest_place(self, aim: u64, bounds: Bounds) -> usize
        requires { Bounding self.values.now aim bounds.lower bounds.upper }
        ensures { result ≡ nearest_place (at self.entry.values.now) 765 aim }
    {
        let lower = bounds.lower;
        let upper = bounds.upper;
        if upper == 0 {
            return 0;
        }
        if 766 <= upper {
            return lower;
        }
        if self.values[upper] - aim < aim - self.values[lower] {
            return upper;
        }
        lower
    }

    // For each intensity the place of the sequence nearest to scale times its share count. (A loop, since bounds go on from entry to
    // entry.)
    #[tactic(auto, using(crate::proofs::Nearest::nearest_le, tables::proofs::Filling::filled_end))]
    fn nearest_entries(self, scale: u64, shares: NonFalling) -> [u16; 766]
        requires { AimsFit scale shares.values.now }
        ensures { result ≡ tabulate (λ s. nearest_place (at self.entry.values.now) 765 (scale * at shares.entry.values.now s)) 766 }
    {
        let mut entries = [0u16; 766];
        let mut bounds = Bounds { lower: 0, upper: 0 };
        for (s, share) in shares.values.iter().enumerate() {
            let aim = scale * *share;
            bounds = self.bounds_from(aim, bounds);
            entries[s] = self.nearest_place(aim, bounds) as u16;
        }
        entries
    }
}

// The targets, each times w.
fn scaled_by(w: u64, targets: [u64; 766]) -> [u64; 766]
    requires { (w ≤ 2 ^ 32) × (targets ≡ tabulate G 766) }
    ensures { result ≡ tabulate (λ k. w * G k) 766 }
{
    array::from_fn(|k| w * targets[k])
}

// What an entry counts of the pixels, from H(s − 1) = `below` and H(s) = `upto`: those below its intensity twice, those of it once. 766
// counts of 32 bits stay below 2^42.
#[tactic(auto, unfolding(crate::specs::Curve::share_count))]
fn share_count(below: u64, upto: u64) -> u64
    requires { (below ≤ 2 ^ 42) × (upto ≤ 2 ^ 42) }
    ensures { result ≡ share_count below upto }
{
    upto + below
}

// What all pixels count, 2 each.
#[tactic(auto, unfolding(crate::specs::Curve::full_count))]
fn full_count(pixels: u32) -> u64
    requires { pixels ≤ 2 ^ 31 }
    ensures { result ≡ full_count pixels }
{
    2 * u64::from(pixels)
}

// The share count of each intensity, from the cumulative counts. (A loop, since a sum goes on from count to count.)
#[tactic(auto, using(tables::proofs::Filling::filled_start, tables::proofs::Filling::filled_end, measuring::proofs::Cumulative::sum_start))]
fn shares_of(counts: &[u32; 766]) -> [u64; 766]
    ensures { result ≡ tabulate (share_at (cumulative counts.now)) 766 }
{
    let mut shares = [0u64; 766];
    let mut below = 0;
    for (s, count) in counts.iter().enumerate() {
        let upto = below + u64::from(*count);
        shares[s] = share_count(below, upto);
        below = upto;
    }
    shares
}

// 765 times a share count over the full one, rounded once.
#[tactic(auto, using(crate::proofs::Curve::equalised_le), unfolding(crate::specs::Curve::equalised_entry))]
fn equalised_entry(full: u64, share: u64) -> u16
    requires { (0 < full) × (full ≤ 2 ^ 32) × (share ≤ full) }
    ensures { result ≡ equalised_entry full share }
{
    rounding::rounded(765 * share, full) as u16
}

// That number for each intensity's share.
fn equalised_entries(full: u64, shares: &[u64; 766]) -> [u16; 766]
    requires { SharesFit full shares.now }
    ensures { result ≡ tabulate (λ s. equalised_entry full (at shares.now s)) 766 }
{
    array::from_fn(|s| equalised_entry(full, shares[s]))
}

// Black and white stay.
#[tactic(auto, using(crate::proofs::Curve::ends_set))]
fn with_ends(mut entries: [u16; 766]) -> [u16; 766]
    ensures { result ≡ tabulate (with_ends (at entries)) 766 }
{
    entries[0] = 0;
    entries[765] = 765;
    entries
}

// The tone curve of a histogram. (The number of pixels stands beside the counts, and in no struct with them: a shot has both among its
// fields, and nothing else hands them on.)
pub fn tone_curve(choice: Choice, pixels: u32, counts: &[u32; 766]) -> [u16; 766]
    requires { HistogramOf pixels counts.now }
    ensures { result ≡ tone_curve choice pixels (cumulative counts.now) }
{
    let full = full_count(pixels);
    let shares = shares_of(counts);
    match choice {
        // 2 × N × G(k) nearest to G(765) × (H(s) + H(s − 1))
        Choice::Cube => {
            let cube = targets::table();
            let scaled = scaled_by(full, cube);
            let targets = NonFalling { values: &scaled };
            let shares = NonFalling { values: &shares };
            with_ends(targets.nearest_entries(cube[765], shares))
        }
        Choice::Equalised => with_ends(equalised_entries(full, &shares)),
    }
}
