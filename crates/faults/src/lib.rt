// The refusals of the editing core, each with its number. A fault of a lower layer is carried whole inside that of the
// layer above: a kind's cause inside a session's fault, and that inside a script's.
#![tactic(auto)]

mod causes;
mod limits;
mod reel;
mod script;
mod session;

pub use causes::Cause;
pub use limits::LIMIT;
pub use reel::ReelFault;
pub use script::{ScriptFault, Stop};
pub use session::SessionFault;
