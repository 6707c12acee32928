//! A text of a specification, a program and a derivation.

ghost use Rattle.std.specs.Prelude.{◌≡◌};
ghost use Rattle.proof_text.specs.Readings.{lines_of};
ghost use Rattle.proof_text.specs.Guesses.{Lacks};
ghost use Rattle.proof_text.specs.Parts.{lines_before, lines_after, joined, spec_part, program_part, proof_part};

use crate::reading::cut;

/// The three parts of a text.
#[derive(Clone, Copy)]
pub struct TextParts<'a> {
    /// What stands before the first line that is exactly `--- program`.
    pub spec: &'a [u8],
    /// What stands after that line and before the first line behind it that is exactly `--- proof`.
    pub program: &'a [u8],
    /// What stands after that line.
    pub proof: &'a [u8],
}

/// What stands before the first line that is exactly these words, and what stands after it.
fn parted<'a>(words: &[u8], text: &'a [u8]) -> (&'a [u8], &'a [u8])
    requires { Lacks 10 words.now }
    ensures before { result.0.now ≡ joined (lines_before words.now (lines_of text.now)) }
    ensures after { result.1.now ≡ joined (lines_after words.now (lines_of text.now)) }
    ensures lines { lines_of result.1.now ≡ lines_after words.now (lines_of text.now) }
{
    let mut rest = text;
    'each: loop {
        match cut(b'\n', rest) {
            Some((line, after)) => {
                if line == words {
                    return (&text[..text.len() - rest.len()], after);
                }
                rest = after;
            }
            None => {
                if rest == words {
                    return (&text[..text.len() - rest.len()], &[]);
                }
                return (text, &[]);
            }
        }
    }
}

/// The parts of a text. Where one of the two lines is missing, the parts after it are empty.
pub fn parts(text: &[u8]) -> TextParts<'_>
    ensures spec { result.spec.now ≡ spec_part text.now }
    ensures program { result.program.now ≡ program_part text.now }
    ensures proof { result.proof.now ≡ proof_part text.now }
{
    let (spec, behind) = parted(b"--- program", text);
    let (program, proof) = parted(b"--- proof", behind);
    TextParts {
        spec,
        program,
        proof,
    }
}
