// A shot: opened empty, measured strip by strip, fixed once, and then used to colour strips (document 01, "The ground covered").
#![tactic(auto)]

ghost use Rattle.std.specs.Prelude.{◌≡◌, cond, Some, None};
ghost use Rattle.refusal.specs.Numbers.{number_in};
ghost use Rattle.shot.specs.Inner.{handed_back};
ghost use Rattle.shot.specs.Shot.{opened, measured, fixed_with, coloured};

use curve::Choice;
use dial::Dial;
use lines::Targets;
use pixel::Method;
use refusal::Refusal;
use settings::Setting;
use std::marker::Model;

// A shot's state: how many of its pixels have each intensity, how many they are, and, once it is fixed, its tone curve. The counts
// stay after fixing.
#[derive(Clone, Copy)]
pub struct Shot {
    counts: [u32; 766],
    pixels: u32,
    curve: Option<[u16; 766]>,
}

// Every shot came from opening, measuring and fixing: no other code makes one, and the type carries the fact.
impl Model for Shot {
    ghost use Rattle.shot.specs.State.{State};

    ghost Value = { State };

    ghost use Rattle.shot.specs.Kept.{kept, fields_of, fields_of_kept};
    ghost use Rattle.shot.specs.Reachable.{Reachable};

    ghost view = { kept };

    ghost invariant = { λ x. Reachable (kept x) };

    ghost inverse = { fields_of };

    ghost inverse_ok = { λ x _. fields_of_kept x };
}

// What a call hands back: the next shot, and 0 or the refusal's number. The customer named this form.
#[derive(Clone, Copy)]
pub struct Answer {
    pub shot: Shot,
    pub number: u32,
}

impl Answer {
    // The next shot where a call is accepted, and the same one where it is refused.
    fn new(shot: Shot, next: Result<Shot, Refusal>) -> Answer
        ensures { result ≡ handed_back shot next }
    {
        Answer {
            number: refusal::number_in(&next),
            shot: next.unwrap_or(shot),
        }
    }
}

impl Shot {
    // A new shot, with no pixel and not fixed.
    #[tactic(auto, unfolding(crate::specs::Shot::opened, crate::specs::Kept::entries))]
    pub fn open() -> Shot
        ensures { result ≡ opened }
    {
        Shot {
            counts: [0; 766],
            pixels: 0,
            curve: None,
        }
    }

    // Adds the strip's pixels to the shot. Refused: 1, 2, 3.
    pub fn measure(self, strip: &[u8]) -> Answer
        ensures { result ≡ measured self strip.now }
    {
        Answer::new(self, self.with_strip(strip))
    }

    // The shot with the strip added.
    #[tactic(auto, using(crate::proofs::Premise::within_limit, crate::proofs::Made::strip_made, crate::proofs::Made::strip_reachable), unfolding(crate::specs::Shot::measured))]
    fn with_strip(&self, strip: &[u8]) -> Result<Shot, Refusal>
        ensures { handed_back self.now result ≡ measured self.now strip.now }
    {
        // the room left is compared, so that nothing can overflow (by `as`: no From makes a usize of a u32)
        let room = measuring::PIXEL_LIMIT - (self.pixels as usize);
        if self.curve.is_some() {
            return Err(Refusal::AlreadyFixed);
        }
        if strip.len() % 3 != 0 {
            return Err(Refusal::NotWholePixels);
        }
        if room < strip.len() / 3 {
            return Err(Refusal::TooManyPixels);
        }
        let counts = measuring::count_strip(self.counts, strip);
        let pixels = self.pixels + (strip.len() / 3) as u32;
        Ok(Shot {
            counts,
            pixels,
            curve: self.curve,
        })
    }

    // Makes the tone curve of all pixels measured. Refused: 1, 4, 5. (The choice comes as a number, so that any other can be refused.)
    pub fn fix(self, choice: u32) -> Answer
        ensures { result ≡ fixed_with self choice }
    {
        Answer::new(self, self.with_curve(choice))
    }

    // The shot with its curve.
    #[tactic(auto, using(crate::proofs::Premise::histogram_of, crate::proofs::Made::curve_made, crate::proofs::Made::curve_reachable), unfolding(crate::specs::Shot::fixed_with))]
    fn with_curve(&self, choice: u32) -> Result<Shot, Refusal>
        ensures { handed_back self.now result ≡ fixed_with self.now choice }
    {
        if self.curve.is_some() {
            return Err(Refusal::AlreadyFixed);
        }
        let choice = Choice::try_from(choice)?;
        if self.pixels == 0 {
            return Err(Refusal::NoPixel);
        }
        let curve = curve::tone_curve(choice, self.pixels, &self.counts);
        Ok(Shot {
            counts: self.counts,
            pixels: self.pixels,
            curve: Some(curve),
        })
    }

    // Colours the source into the destination by the shot's curve, as the dial has it, and hands the shot back as it is. Refused: 6, 7, 2,
    // 8, 17 or 18. (The method comes as a number, so that any other can be refused; the arguments are those that the customer named.)
    pub fn colour(self, method: u32, dial: Dial, source: &[u8], destination: &mut [u8]) -> Answer
        ensures { coloured self (record { method = method; dial = dial; source = source.now; destination = destination.old }) ≡ record { answer = result; bytes = destination.new } }
    {
        let written = self.write(method, dial, source, destination);
        // Not by `Answer::new`: a Result with the shot in it is copied, shot and all, which under off takes longer than to colour few pixels.
        Answer {
            number: refusal::number_in(&written),
            shot: self,
        }
    }

    // Writes the coloured source.
    #[tactic(auto, using(crate::proofs::Made::curve_in_range), unfolding(crate::specs::Shot::coloured))]
    fn write(
        &self,
        method: u32,
        dial: Dial,
        source: &[u8],
        destination: &mut [u8],
    ) -> Result<(), Refusal>
        ensures { coloured self.now (record { method = method; dial = dial; source = source.now; destination = destination.old }) ≡ record { answer = record { shot = self.now; number = number_in result }; bytes = destination.new } }
    {
        let Some(curve) = &self.curve else {
            return Err(Refusal::NotFixed);
        };
        let method = Method::try_from(method)?;
        colouring::check_sizes(source, destination)?;
        let setting = Setting::try_from(dial)?;
        let targets = Targets { entries: curve };
        colouring::colour_under(setting, targets, method, source, destination);
        Ok(())
    }
}

// The tone curve of a fixed shot; of another, none. (A free function, since it is no call of a shot's: what streams leave in a shot is handed
// on by it.)
#[tactic(auto, using(crate::specs::Kept::curve_back))]
pub fn curve_of(shot: &Shot) -> Option<[u16; 766]>
    ensures { result ≡ cond shot.now.fixed (Some shot.now.curve) None }
{
    shot.curve
}
