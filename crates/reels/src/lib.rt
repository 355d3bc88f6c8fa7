// Reels: finite lists of 16-bit samples, and layers over them. Nothing is stored: a sample is
// computed when it is asked for, one by one or a block at a time.
#![tactic(auto)]

mod byte_reel;
mod gain;
mod joined;
mod mulaw;
mod pcm;
mod pile;
mod reel;
mod write;

pub use byte_reel::{ByteReel, Format};
pub use gain::Gain;
pub use joined::Joined;
pub use mulaw::{MuLaw, decode};
pub use pcm::Pcm;
pub use pile::{Pile, piled};
pub use reel::Reel;
pub use write::write_out;
