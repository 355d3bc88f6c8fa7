ghost use Rattle.std.specs.Prelude.{◌≡◌, ◌*◌, length};
ghost use Rattle.reels.specs.Samples.{Written, WrittenBlock, bytes_of};

use crate::reel::{Reel, fitting};

// How many samples are copied at a time.
const BLOCK: usize = 512;

// Writes the samples from `start` on as bytes, two each, the low byte first: as many as there are
// and fit, and says how many; the bytes beyond stay as found.
pub fn write_out<R: Reel>(reel: &R, start: u32, out: &mut [u8]) -> usize
    ensures { Written (R.samples reel.now) start out.old out.new result }
{
    let n = fitting(reel.len(), start, out.len() / 2);
    let mut scratch = [0i16; BLOCK];
    for done in (0..n).step_by(BLOCK) {
        write_block(
            reel,
            start + done as u32,
            &mut scratch,
            &mut out[2 * done..],
        );
    }
    n
}

// The same, for as many as fit the scratch block.
fn write_block<R: Reel>(reel: &R, start: u32, scratch: &mut [i16; BLOCK], out: &mut [u8]) -> usize
    ensures { WrittenBlock 512 (R.samples reel.now) start out.old out.new result }
{
    let most = (out.len() / 2).min(BLOCK);
    let n = reel.copy_to(start, &mut scratch[0..most]);
    put_bytes(&scratch[0..n], &mut out[0..2 * n]);
    n
}

// Writes each sample as two bytes. They go by index: of what `chunks_exact_mut` lends, a proof knows
// the length alone.
fn put_bytes(block: &[i16], out: &mut [u8])
    requires { length out.old ≡ 2 * length block.now }
    ensures { out.new ≡ bytes_of block.now }
{
    for (i, s) in block.iter().enumerate() {
        let [low, high] = s.to_le_bytes();
        out[2 * i] = low;
        out[2 * i + 1] = high;
    }
}
