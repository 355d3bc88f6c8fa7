// The work on whole reels as C functions, for the benchmark: the levels of a pile of layers, and all
// of it written out as bytes. Bytes that are refused as a reel count as a reel of no samples.
#![tactic(auto)]

mod entries;
mod summary;
mod whole;

pub use entries::{
    speed_summary_gain, speed_summary_mulaw, speed_summary_pcm, speed_summary_pile,
    speed_write_gain, speed_write_mulaw, speed_write_pcm, speed_write_pile,
};
pub use summary::Summary;
