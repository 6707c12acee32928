//! Names with numbers.

ghost use Rattle.std.specs.Prelude.{◌≡◌, ◌∷◌, []};
ghost use Rattle.std.specs.Str.{bytes_eq};
ghost use Rattle.fits.specs.Follow.{numbered_name};

use itoa::Buffer;

/// Whether a name is this letter with this number.
pub fn is_numbered(name: &[u8], letter: u8, number: u64) -> bool
    ensures { result ≡ bytes_eq name.now (numbered_name (letter ∷ []) number) }
{
    let mut buffer = Buffer::new();
    let digits = buffer.format(number).as_bytes();
    match name {
        [first, rest @ ..] => *first == letter && rest == digits,
        [] => false,
    }
}
