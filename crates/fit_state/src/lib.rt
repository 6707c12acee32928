//! The state in which a derivation is followed, and what is done with it between blocks.
#![tactic(auto)]

mod binding;
mod infos;
mod left;
mod owner;
mod passing;
mod shapes;
mod state;
mod step;
mod until;
mod view;

pub use binding::{all_fresh, bind_at, bind_known, bind_words, bind_words_known, fresh};
pub use infos::{Info, all_vars, all_words, arg_info, arg_infos, info_shapes, info_words};
pub use left::none_left;
pub use passing::pass_all;
pub use shapes::{all_below, in_order, old_shapes, same_shapes};
pub use state::FitState;
pub use until::{pass_until_held, pass_until_none_left};
pub use view::{Rest, Views, find_proc};
