// How a stream is coloured. (A file of its own: the definitions that contracts cite name this type, and a struct with a ghost field imports
// those of its file.)
ghost use Rattle.std.specs.Prelude.{◌≡◌};
ghost use Rattle.refusal.specs.Refusal.{first_of};
ghost use Rattle.curve.specs.Curve.{EntriesInRange};
ghost use Rattle.stream_colouring.specs.StreamColour.{setting_checks};

use pixel::Method;
use settings::Setting;

// A curve's entries, a method and a command of the dial, each of which was looked at.
#[derive(Clone, Copy)]
pub(crate) struct Grade {
    pub(crate) entries: [u16; 766],
    pub(crate) method: Method,
    pub(crate) setting: Setting,
    ghost in_range: { EntriesInRange entries },
    ghost setting_accepted: { first_of (setting_checks setting) ≡ 0 },
}
