//! Where the blocks of `if`, loops and `either` begin and end, while a derivation is followed.
#![tactic(auto)]

mod assert;
mod block;
mod choice;
mod either;
mod ending;
mod frame;
mod heads;
mod looping;
mod same;
mod turning;

pub use assert::assert_step;
pub use block::{Begun, Closed, close_block, close_side, open_block, open_side};
pub use choice::{Choice, Joint, Side, begin_if, forget_facts, learn, leave_side, meet_sides};
pub use either::{Taken, end_side, taken_side};
pub use ending::finish_block;
pub use frame::{Ends, Frame, Over, Unmet};
pub use heads::WhileHead;
pub use looping::{Loop, LoopCode, Starting, begin_loop};
pub use turning::{Headed, end_head, end_loop};
