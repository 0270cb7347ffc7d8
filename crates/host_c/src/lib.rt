// The library for C: the calls of the crate `host`, under their names and with their contracts. A crate is a library for Rattle or for C, and
// not both, so this one only hands them on.
#![tactic(auto)]

ghost use Rattle.std.specs.Prelude.{◌≡◌};
ghost use Rattle.host.specs.Host.{curve_outcome, colour_outcome};

// Writes the tone curve of the strip, taken as a whole shot, as 1,532 bytes. Refused: 4, 10, 2, 5, 3.
#[unsafe(no_mangle)]
pub extern "C" fn cube_balance_curve(strip: &[u8], choice: u32, curve: &mut [u8]) -> u32
    ensures { curve_outcome (record { strip = strip.now; choice = choice; curve = curve.old }) ≡ record { number = result; bytes = curve.new } }
{
    host::cube_balance_curve(strip, choice, curve)
}

// Colours the source into the destination by a curve of 1,532 bytes. Refused: 10, 11, 7, 2, 8.
#[unsafe(no_mangle)]
pub extern "C" fn cube_balance_colour(
    curve: &[u8],
    method: u32,
    source: &[u8],
    destination: &mut [u8],
) -> u32
    ensures { colour_outcome (record { curve = curve.now; method = method; source = source.now; destination = destination.old }) ≡ record { number = result; bytes = destination.new } }
{
    host::cube_balance_colour(curve, method, source, destination)
}
