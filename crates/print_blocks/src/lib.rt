//! The binds with blocks: where blocks begin, and what is printed where they are over.
#![tactic(auto)]

mod branches;
mod choice;
mod either;
mod forks;
mod loops;
mod passing;

pub use branches::{Gone, Outside, close_branch, open_branch};
pub use choice::{Half, Joint, Tested, close_choice, half_choice, open_choice};
pub use either::{Tried, first_taken, open_either, other_taken};
pub use forks::{
    Cut, Forking, HalfFork, WholeFork, begin_par, begin_split, end_fork, half_fork, whole_fork,
};
pub use loops::{Condition, Headed, Loop, Opening, Starting, Turn, begin_loop, end_head, end_loop};
pub use passing::Passing;
