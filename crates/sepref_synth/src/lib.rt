//! What `synth` prints: a specification is translated, and what was printed is checked before it is given out.
#![tactic(auto)]

mod making;

pub use making::{Synthesized, synthesize};
