// Commands of the strength dial (document 02, wish 1), decoded to settings in whole numbers.
#![tactic(auto)]

ghost use Rattle.std.specs.Prelude.{◌≡◌};
ghost use Rattle.dial.specs.Dial.{whole_of, decoded};

use refusal::Refusal;
use settings::Setting;

// The panel's command, as it was sent. (A type apart from `Setting`, which has the same cases in whole numbers, and not one type with a
// parameter: no function takes both, and each contract would have to say which of the two it means.)
#[derive(Clone, Copy)]
pub enum Dial {
    Off,
    Mix(f32),
    Hold(f32),
}

// The whole number from 0 to top that y is exactly. The tests of the range come first, so that cutting off a fraction is defined: they
// refuse NaN and the infinities, and let minus zero pass. A fraction that was cut off makes the comparison fail.
fn whole_of(y: f64, top: u32) -> Option<u32>
    ensures { result ≡ whole_of 1 top y }
{
    let last = f64::from(top);
    if y >= 0.0 {
        if y <= last {
            let k = std::num::truncating_f64_to_u64(y);
            // no From makes an f64 of a u64
            if (k as f64) == y {
                return Some(k as u32);
            }
        }
    }
    None
}

// The k from 0 to 256 with x = k / 256. In 64 bits the product of every finite x is exact.
#[tactic(auto, using(crate::proofs::Product::stop_of_product))]
fn stop(x: f32) -> Option<u32>
    ensures { result ≡ whole_of 256 256 x }
{
    whole_of(f64::from(x) * 256.0, 256)
}

// The whole number from 0 to 765 that x is exactly.
fn intensity(x: f32) -> Option<u32>
    ensures { result ≡ whole_of 1 765 x }
{
    whole_of(f64::from(x), 765)
}

// A command is decoded for every float that it may carry. Refused: 17, the amount is not a stop; 18, the held value is not a whole
// intensity.
impl TryFrom<Dial> for Setting {
    type Error = Refusal;

    ghost try_from_gives = { λ dial setting. setting ≡ decoded dial };

    fn try_from(dial: Dial) -> Result<Setting, Refusal> {
        match dial {
            Dial::Off => Ok(Setting::Off),
            Dial::Mix(x) => {
                let k = stop(x).ok_or(Refusal::NotAStop)?;
                Ok(Setting::Mix(k))
            }
            Dial::Hold(x) => {
                let v = intensity(x).ok_or(Refusal::NotAnIntensity)?;
                Ok(Setting::Hold(v))
            }
        }
    }
}
