// Profiles: an element of any kind surveyed in columns, and what is shown of audio.
#![tactic(auto)]

mod columns;
mod fault;
mod pile;
mod time;
mod wave;

pub use columns::{Survey, edge_of, in_columns, measure, survey_of};
pub use fault::SurveyFault;
pub use pile::{beats_of, levels_of_pile};
pub use time::{Time, time_of};
pub use wave::{reaches_band, wave_row};
