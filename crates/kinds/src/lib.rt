// Kinds of element: all that the trees know of a subject (audio, tempo). A kind names its element and
// its summary, and says by ghost members what they mean.
#![tactic(auto)]

mod kind;
mod tally;

pub use kind::Kind;
pub use tally::Tally;
