// What the programs share: the words that they are called with, the files that they read, and a waveform in text.
#![tactic(auto)]

mod drawing;
mod files;
mod words;

pub use drawing::{band_of, print_wave};
pub use files::read;
pub use words::{called_with, number, value};
