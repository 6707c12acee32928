//! The typed specification that a text is.

ghost use Rattle.std.specs.Prelude.{IfOk};
ghost use Rattle.sepref_top.specs.Making.{SaysTyped};

use crate::answer::{Answer, Text, place_line};
use crate::status::Status;
use crate::type_line::type_line;
use nres_core::{Spec, Typing, With};
use nres_syntax::{SyntaxRefusal, read_spec};
use nres_types::type_of;
use sqlite_items::Items;
use std::alloc::{AllocError, Global};

/// A specification with its typing, and the values behind it.
#[derive(Drop)]
pub(crate) struct TypedSpec {
    pub(crate) spec: Spec,
    pub(crate) typing: Typing,
    pub(crate) withs: Items<With>,
}

/// The typed specification that a text is, or the line that tells why it is none.
pub(crate) fn typed_text(
    alloc: Global,
    text: &[u8],
) -> Result<Result<TypedSpec, Answer>, AllocError>
    ensures { IfOk result (λ found. SaysTyped text.now found) }
{
    let found = match read_spec(alloc, text) {
        Ok(found) => found,
        Err(SyntaxRefusal::At(place)) => {
            return Ok(Err(Answer {
                status: Status::Syntax(place),
                text: Text::Made(place_line(alloc, b"! syntax ", place)?),
            }));
        }
        Err(SyntaxRefusal::TooDeep(place)) => {
            return Ok(Err(Answer {
                status: Status::TooDeep(place),
                text: Text::Made(place_line(alloc, b"! too deep ", place)?),
            }));
        }
        Err(SyntaxRefusal::Memory) => return Err(AllocError),
    };
    match type_of(alloc, &found.0) {
        Ok(typing) => Ok(Ok(TypedSpec {
            spec: found.0,
            typing,
            withs: found.1,
        })),
        // Want of memory has no line, and is answered so.
        Err(refusal) => Ok(Err(Answer {
            status: Status::Type_,
            text: Text::Made(Items::from_vec(type_line(alloc, &refusal)?)),
        })),
    }
}
