//! Names of words.

ghost use Rattle.std.specs.Prelude.{◌≡◌, Some};
ghost use Rattle.fit_tokens.specs.Changes.{token_of, tokens_of};
ghost use Rattle.fits.specs.Places.{same_token};
ghost use Rattle.fits.specs.Follow.{first_word};

/// The name of a word.
#[derive(Clone, Copy)]
pub enum Token {
    /// A number itself.
    Number(u64),
    /// A register of a variable where it was bound, counted from 0.
    Of(u32, u32),
}

/// Whether two words have the same name.
pub fn same_token(first: Token, second: Token) -> bool
    ensures { result ≡ same_token (token_of first) (token_of second) }
{
    match (first, second) {
        (Token::Number(one), Token::Number(other)) => one == other,
        (Token::Of(var, index), Token::Of(other, place)) => var == other && index == place,
        _ => false,
    }
}

/// Whether the first of these words has this name.
pub fn first_is(token: Token, words: &[Token]) -> bool
    ensures { result ≡ first_word (Some (token_of token)) (tokens_of words.now) }
{
    match words {
        [] => false,
        [first, ..] => same_token(token, *first),
    }
}
