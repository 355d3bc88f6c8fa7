ghost use Rattle.std.specs.Prelude.{◌≡◌, map, length, IfOk, Some, None, MatchResult};
ghost use Rattle.reels.specs.Keeps.{mulaw_keeps};
ghost use Rattle.reels.specs.MuLaw.{decoded, inverted, sign, signed, size, mu_law_bytes, mu_law_samples, mu_law_refusal};
ghost use Rattle.reels.specs.Samples.{Copied};

use crate::reel::{Reel, fitting};
use faults::{LIMIT, ReelFault};

// The sample of each byte.
const TABLE: [i16; 256] = [
    -32124, -31100, -30076, -29052, -28028, -27004, -25980, -24956, -23932, -22908, -21884, -20860,
    -19836, -18812, -17788, -16764, -15996, -15484, -14972, -14460, -13948, -13436, -12924, -12412,
    -11900, -11388, -10876, -10364, -9852, -9340, -8828, -8316, -7932, -7676, -7420, -7164, -6908,
    -6652, -6396, -6140, -5884, -5628, -5372, -5116, -4860, -4604, -4348, -4092, -3900, -3772,
    -3644, -3516, -3388, -3260, -3132, -3004, -2876, -2748, -2620, -2492, -2364, -2236, -2108,
    -1980, -1884, -1820, -1756, -1692, -1628, -1564, -1500, -1436, -1372, -1308, -1244, -1180,
    -1116, -1052, -988, -924, -876, -844, -812, -780, -748, -716, -684, -652, -620, -588, -556,
    -524, -492, -460, -428, -396, -372, -356, -340, -324, -308, -292, -276, -260, -244, -228, -212,
    -196, -180, -164, -148, -132, -120, -112, -104, -96, -88, -80, -72, -64, -56, -48, -40, -32,
    -24, -16, -8, 0, 32124, 31100, 30076, 29052, 28028, 27004, 25980, 24956, 23932, 22908, 21884,
    20860, 19836, 18812, 17788, 16764, 15996, 15484, 14972, 14460, 13948, 13436, 12924, 12412,
    11900, 11388, 10876, 10364, 9852, 9340, 8828, 8316, 7932, 7676, 7420, 7164, 6908, 6652, 6396,
    6140, 5884, 5628, 5372, 5116, 4860, 4604, 4348, 4092, 3900, 3772, 3644, 3516, 3388, 3260, 3132,
    3004, 2876, 2748, 2620, 2492, 2364, 2236, 2108, 1980, 1884, 1820, 1756, 1692, 1628, 1564, 1500,
    1436, 1372, 1308, 1244, 1180, 1116, 1052, 988, 924, 876, 844, 812, 780, 748, 716, 684, 652,
    620, 588, 556, 524, 492, 460, 428, 396, 372, 356, 340, 324, 308, 292, 276, 260, 244, 228, 212,
    196, 180, 164, 148, 132, 120, 112, 104, 96, 88, 80, 72, 64, 56, 48, 40, 32, 24, 16, 8, 0,
];

// The sample of a mu-law byte: ITU-T G.711's value times four.
pub fn decode(byte: u8) -> i16
    ensures means { result ≡ decoded byte }
    ensures rule { result ≡ signed (sign (inverted byte)) (size (inverted byte)) }
{
    TABLE[byte as usize]
}

// A reel of one mu-law byte a sample.
#[derive(Clone, Copy)]
pub struct MuLaw<'a> {
    bytes: &'a [u8],
}

impl<'a> MuLaw<'a> {
    // Refuses more bytes than the limit, and nothing else.
    pub fn new(bytes: &'a [u8]) -> Result<MuLaw<'a>, ReelFault>
        ensures refusal { MatchResult result (λ _. mu_law_refusal bytes.now ≡ None) (λ f. mu_law_refusal bytes.now ≡ Some f) }
        ensures reel { IfOk result (λ p. (mu_law_bytes p ≡ bytes.now) × (mu_law_samples (mu_law_bytes p) ≡ map decoded bytes.now)) }
    {
        if bytes.len() > LIMIT as usize {
            return Err(ReelFault::TooLong);
        }
        Ok(MuLaw { bytes })
    }
}

#[tactic(auto, using(crate::proofs::Codes::mu_law_long))]
impl<'a> Reel for MuLaw<'a> {
    ghost samples = { λ s. mu_law_samples (mu_law_bytes s) };

    ghost bounds = { λ s. mulaw_keeps (mu_law_bytes s) };

    fn len(&self) -> u32 {
        self.bytes.len().min(LIMIT as usize) as u32
    }

    fn sample(&self, i: u32) -> Option<i16> {
        if i >= self.len() {
            return None;
        }
        Some(decode(self.bytes[i as usize]))
    }

    fn copy_to(&self, start: u32, block: &mut [i16]) -> usize
        ensures { Copied (mu_law_samples (mu_law_bytes self.now)) start block.old block.new result }
    {
        let n = fitting(self.len(), start, block.len());
        if n == 0 {
            return 0;
        }
        let from = start as usize;
        expand(&self.bytes[from..from + n], &mut block[0..n]);
        n
    }
}

// Decodes as many bytes into the block. The bytes go by index: of what a zip of `iter_mut` writes, a
// proof knows nothing.
fn expand(bytes: &[u8], block: &mut [i16])
    requires { length bytes.now ≡ length block.old }
    ensures { block.new ≡ map decoded bytes.now }
{
    for (i, s) in block.iter_mut().enumerate() {
        *s = decode(bytes[i]);
    }
}
