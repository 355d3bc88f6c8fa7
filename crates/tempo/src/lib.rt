// Tempo elements: stretches of ticks at one tempo, summarised by their length in time.
#![tactic(auto)]

mod beats;
mod kind;
mod span;

pub use beats::Beats;
pub use kind::Tempo;
pub use span::Span;
