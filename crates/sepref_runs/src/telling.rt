//! A status with the bytes that are to be written for it.

ghost use Rattle.std.specs.Prelude.{◌≡◌, ◌++◌, IfOk};
ghost use Rattle.sepref_top.specs.InputLines as inputs;
ghost use Rattle.sepref_top.specs.Statuses as statuses;
ghost use Rattle.sepref_runs.specs.Texts.{bytes_of};

use crate::status::RunStatus;
use inputs::InputFault;
use nres_core::Place;
use sepref_top::push_fault;
use std::alloc::{AllocError, Global};
use target_code::{Name, push_number};

/// Bytes that are to be written.
#[derive(Drop)]
pub enum Text {
    /// A line that is the same whatever the input.
    Fixed(&'static [u8]),
    /// Bytes that were made for the input.
    Made(Vec<u8>),
}

/// A status with the bytes that are to be written for it.
#[derive(Drop)]
pub struct Telling {
    /// The status.
    pub status: RunStatus,
    /// The bytes.
    pub text: Text,
}

impl Telling {
    /// The bytes that are to be written.
    pub fn bytes(&self) -> &[u8]
        ensures { result.now ≡ bytes_of self.now.text }
    {
        match &self.text {
            Text::Fixed(line) => line,
            Text::Made(bytes) => bytes.as_slice(),
        }
    }
}

/// A line of these words, and of a place's line and column.
pub(crate) fn place_line(alloc: Global, words: &[u8], place: Place) -> Result<Vec<u8>, AllocError>
    ensures { IfOk result (λ line. line.items ≡ statuses.placed words.now place) }
{
    let mut line = Vec::new(alloc);
    line.extend_from_slice(words)?;
    push_number(&mut line, place.line)?;
    line.extend_from_slice(b" ")?;
    push_number(&mut line, place.column)?;
    line.push(b'\n')?;
    Ok(line)
}

/// A line of these words, and of a number.
pub(crate) fn number_line(alloc: Global, words: &[u8], number: u64) -> Result<Vec<u8>, AllocError>
    ensures { IfOk result (λ line. line.items ≡ statuses.numbered words.now number) }
{
    let mut line = Vec::new(alloc);
    line.extend_from_slice(words)?;
    push_number(&mut line, number)?;
    line.push(b'\n')?;
    Ok(line)
}

/// The line that tells what is wrong with the value of a name.
pub(crate) fn input_line(
    alloc: Global,
    name: &Name,
    fault: InputFault,
) -> Result<Vec<u8>, AllocError>
    ensures { IfOk result (λ line. line.items ≡ inputs.input_line (name.now, fault)) }
{
    let mut line = Vec::new(alloc);
    line.extend_from_slice(b"! input ")?;
    line.extend_from_slice(name.bytes())?;
    line.extend_from_slice(b" ")?;
    push_fault(&mut line, fault)?;
    line.push(b'\n')?;
    Ok(line)
}
