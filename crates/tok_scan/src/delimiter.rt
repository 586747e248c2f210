//! The characters of delimiters.
ghost use Rattle.std.specs.Prelude.{◌≡◌};
ghost use Rattle.std.specs.Str.{encode_utf8_all};
ghost use Rattle.tok_scan.specs.Characters as characters;

use tok_types::Delimiter;

/// How a group begins in a text.
pub fn opening(delimiter: Delimiter) -> &'static str
    ensures { result.now ≡ encode_utf8_all (characters.opening delimiter) }
{
    match delimiter {
        Delimiter::Parenthesis => "(",
        Delimiter::Bracket => "[",
        Delimiter::Brace => "{",
        Delimiter::None => "",
    }
}

/// How a group ends in a text.
pub fn closing(delimiter: Delimiter) -> &'static str
    ensures { result.now ≡ encode_utf8_all (characters.closing delimiter) }
{
    match delimiter {
        Delimiter::Parenthesis => ")",
        Delimiter::Bracket => "]",
        Delimiter::Brace => "}",
        Delimiter::None => "",
    }
}
