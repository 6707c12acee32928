//! Specifications: their values, tokens, trees and rules. A reader makes a tree of tokens, typing gives each word an
//! operation, and flattening leaves one operation in each bind.
#![tactic(auto)]

mod flat;
mod identified;
pub mod laws;
mod op;
mod place;
mod refusal;
mod row;
mod token;
mod tree;
mod ty;
mod value;
mod vocabulary;

pub use containers::{NumBag, NumMap, NumSet, Nums};
pub use flat::{Arg, Flat, FlatBind, FlatBlock, FlatFun};
pub use identified::{IdBlock, IdBody, IdExpr, IdFun, IdStep, Identified};
pub use op::Op;
pub use place::{Named, Place};
pub use refusal::{Refusal, Why};
pub use row::{Fate, Kind, LibName, Row, RowCode};
pub use token::{Piece, Token, TokenKind};
pub use tree::{Block, Body, Chosen, Expr, Fun, Param, Shown, Spec, Step, Typing, With};
pub use ty::Ty;
pub use value::Value;
pub use vocabulary::{ByType, Meant, OPERATION_WORDS, OpEntry, look_up, looseness, rep_type};
