//! What the programs do: the top calls, from the words of a command line to the bytes that are
//! written and the status.
#![tactic(auto)]

mod answering;
mod asking;
mod checking;
mod halting;
mod including;
mod judging;
mod laws;
mod loading;
mod matrix_text;
mod measure;
mod running;
mod status;
mod telling;
mod words;

pub use checking::check_run;
pub use laws::{right_answers_are_equal, written_evidence_is_accepted};
pub use running::run;
pub use status::Status;
