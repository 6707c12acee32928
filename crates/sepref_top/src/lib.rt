//! The commands: from words and the bytes of a source to the bytes of a sink and a status.
#![tactic(auto)]

mod answer;
mod evaluation;
mod making;
mod reading;
mod status;
mod synthesis;
mod top;
mod type_line;
mod verification;
mod words;

pub use answer::{Answer, Text, push_fault};
pub use making::{Runnable, program_for_text};
pub use status::Status;
pub use top::calm_main;
pub use words::{Command, Line, read_words};
