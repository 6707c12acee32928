//! Answers: a status with what is to be written for it.

ghost use Rattle.std.specs.Prelude.{List, ◌≡◌, ◌++◌, IfOk, OnOk};
ghost use Rattle.sepref_top.specs.InputLines as inputs;
ghost use Rattle.sepref_top.specs.Statuses as statuses;
ghost use Rattle.sepref_top.specs.Texts.{bytes_of};

use crate::status::Status;
use inputs::InputFault;
use nres_core::Place;
use sqlite_items::Items;
use std::alloc::{AllocError, Global};
use target_code::{Name, push_number};

/// Bytes that are to be written.
#[derive(Drop)]
pub enum Text {
    /// A line that is the same whatever the input.
    Fixed(&'static [u8]),
    /// Bytes that were made for the input.
    Made(Items<u8>),
}

/// A status with what is to be written for it.
#[derive(Drop)]
pub struct Answer {
    /// The status.
    pub status: Status,
    /// The bytes.
    pub text: Text,
}

impl Answer {
    /// A status whose line is the same whatever the input. Takes no memory.
    pub(crate) fn of_line(status: Status) -> Answer
        ensures status { result.status ≡ status }
        ensures line { statuses.HasFixedLine status → bytes_of result.text ≡ statuses.line_of status }
    {
        Answer {
            status,
            text: Text::Fixed(status.fixed_line()),
        }
    }

    /// The bytes that are to be written.
    pub fn bytes(&self) -> &[u8]
        ensures { result.now ≡ bytes_of self.now.text }
    {
        match &self.text {
            Text::Fixed(line) => line,
            Text::Made(bytes) => bytes.as_slice(),
        }
    }
}

/// A line of these words, and of a place's line and column.
pub(crate) fn place_line(alloc: Global, words: &[u8], place: Place) -> Result<Items<u8>, AllocError>
    ensures { IfOk result (λ line. line ≡ statuses.placed words.now place) }
{
    let mut line = Vec::new(alloc);
    line.extend_from_slice(words)?;
    push_number(&mut line, place.line)?;
    line.extend_from_slice(b" ")?;
    push_number(&mut line, place.column)?;
    line.push(b'\n')?;
    Ok(Items::from_vec(line))
}

/// A line of these words, and of a number.
pub(crate) fn number_line(alloc: Global, words: &[u8], number: u64) -> Result<Items<u8>, AllocError>
    ensures { IfOk result (λ line. line ≡ statuses.numbered words.now number) }
{
    let mut line = Vec::new(alloc);
    line.extend_from_slice(words)?;
    push_number(&mut line, number)?;
    line.push(b'\n')?;
    Ok(Items::from_vec(line))
}

/// What is wrong with a value, in words, behind a line. Where there is no memory, the line may have a part of them.
pub fn push_fault(line: &mut Vec<u8>, fault: InputFault) -> Result<(), AllocError>
    ensures { OnOk result (line.new.items ≡ line.old.items ++ inputs.fault_words fault) }
{
    match fault {
        InputFault::Unknown => line.extend_from_slice(b"unknown"),
        InputFault::Twice => line.extend_from_slice(b"twice"),
        InputFault::Type_ => line.extend_from_slice(b"type"),
        InputFault::Missing => line.extend_from_slice(b"missing"),
        InputFault::Fit(number) => {
            line.extend_from_slice(b"fit ")?;
            push_number(line, number)
        }
    }
}

/// The line that tells what is wrong with the value of a name.
pub(crate) fn input_line(
    alloc: Global,
    name: &Name,
    fault: InputFault,
) -> Result<Items<u8>, AllocError>
    ensures { IfOk result (λ line. line ≡ inputs.input_line (name.now, fault)) }
{
    let mut line = Vec::new(alloc);
    line.extend_from_slice(b"! input ")?;
    line.extend_from_slice(name.bytes())?;
    line.extend_from_slice(b" ")?;
    push_fault(&mut line, fault)?;
    line.push(b'\n')?;
    Ok(Items::from_vec(line))
}
