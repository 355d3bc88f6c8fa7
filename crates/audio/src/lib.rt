// Audio elements: stretches of a reel, summarised by their levels.
#![tactic(auto)]

mod clip;
mod kind;
mod levels;
mod measure;

pub use clip::Clip;
pub use kind::Audio;
pub use levels::Levels;
