//! What an input of `replay` is answered.

ghost use Rattle.std.specs.Prelude.{◌≡◌};
ghost use Rattle.replay_causes.specs.Causes.{code_of};

use inputs::InputFault;
use nres_core::{Place, Value};
use replay::ReplayEnd;
use replay_lines::code;
use sqlite_items::Items;
use target_code::Name;

/// What an input of `replay` is answered, in the order in which it is tested.
#[derive(Drop)]
pub enum Cause {
    /// What stands before values and schedule is the text of no program: this line is refused.
    NotProgram(u64),
    /// Behind a program, this is the first place at which no list of values goes on.
    Syntax(Place),
    /// Behind a program and values, this line of the input is none of a schedule, or is the 20,001st.
    NoSchedule(u64),
    /// The values are not those of the inputs.
    Input {
        /// The name whose value is at fault.
        name: Name,
        /// What is wrong with it.
        fault: InputFault,
    },
    /// The block of an input does not fit.
    HeapFull {
        /// The words claimed before it.
        at: u64,
        /// Its words.
        len: u64,
    },
    /// The root ended, and this result, counted from 1, is the first that represents no value.
    NoValue(u64),
    /// The schedule was followed.
    Told {
        /// What was told first.
        end: ReplayEnd,
        /// The values that the results represent, where the root ended; else none.
        values: Items<Value>,
    },
}

impl Cause {
    /// The number of the status that goes with it.
    pub fn code(&self) -> u8
        ensures { result ≡ code_of self.now }
    {
        match self {
            Cause::NotProgram(_) => 9,
            Cause::Syntax(_) => 2,
            Cause::NoSchedule(_) => 17,
            Cause::Input { .. } => 5,
            Cause::HeapFull { .. } => 8,
            Cause::NoValue(_) => 12,
            Cause::Told { end, .. } => code(end),
        }
    }
}
