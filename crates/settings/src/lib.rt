// The settings of the strength dial (document 02, wish 1), in whole numbers, and the bytes of a mix. (Off and held pixels are
// written in `colouring`.)
#![tactic(auto)]

ghost use Rattle.std.specs.Prelude.{◌≡◌, ◌≤◌, length};
ghost use Rattle.settings.specs.Setting.{mixed};
ghost use Rattle.settings.specs.Inner.{mixed_bytes};

// A command of the panel's dial, decoded: off; mix with an amount of k / 256, k from 0 to 256; or hold at an intensity, 0 to 765.
#[derive(Clone, Copy, Debug, PartialEq, Eq)]
pub enum Setting {
    Off,
    Mix(u32),
    Hold(u32),
}

// The k of amount 1, at which a mix is the full balance.
pub const FULL: u32 = 256;

// The sample c of the source, mixed with its full balance. All of it fits 16 bits.
#[tactic(auto, unfolding(crate::specs::Setting::mixed))]
fn mix_sample(k: u16, c: u8, balance: u8) -> u8
    requires { k ≤ 256 }
    ensures { result ≡ mixed k c balance }
{
    ((u16::from(c) * (256 - k) + u16::from(balance) * k + 128) / 256) as u8
}

// The destination holds the full balance of the source; each of its samples is mixed with the source's. The loop does the same to every
// byte, so that the compiler can take many at a time. (A zip of the two slices would leave the bytes written unknown to the proof. k is a
// number with a clause: a type that carries its bound would have to be made of a setting's number first.)
#[tactic(auto, using(crate::proofs::Bytes::mixed_end))]
pub fn mix_bytes(k: u32, source: &[u8], destination: &mut [u8])
    requires k_bound { k ≤ 256 }
    requires destination_len { length destination.old ≡ length source.now }
    ensures { destination.new ≡ mixed_bytes k source.now destination.old }
{
    let stop = k as u16;
    for (i, x) in destination.iter_mut().enumerate() {
        *x = mix_sample(stop, source[i], *x);
    }
}
