//! Names: what an identifier is made of.
ghost use Rattle.std.specs.Prelude.{◌≡◌};
ghost use Rattle.std.specs.List.{list_all};
ghost use Rattle.tok_types.specs.Names as names;

/// Whether a name can begin with this character.
pub fn starts_name(c: char) -> bool
    ensures { result ≡ names.starts_name c }
{
    unicode_ident::is_xid_start(c) || c == '_'
}

/// Whether a name can go on with this character.
pub fn continues_name(c: char) -> bool
    ensures { result ≡ names.continues_name c }
{
    unicode_ident::is_xid_continue(c)
}

fn all_continue(text: &[char]) -> bool
    ensures { result ≡ list_all names.continues_name text.now }
{
    text.iter().all(|c| continues_name(*c))
}

/// Whether the characters are a name: the text of an identifier, without `r#`.
pub fn is_name(text: &[char]) -> bool
    ensures { result ≡ names.is_name text.now }
{
    match text {
        [] => false,
        [first, rest @ ..] => starts_name(*first) && all_continue(rest),
    }
}

/// Whether the name has no raw form, as `self` has none.
pub fn is_reserved(name: &[char]) -> bool
    ensures { result ≡ names.is_reserved name.now }
{
    name == ['_'].as_slice()
        || name == ['s', 'e', 'l', 'f'].as_slice()
        || name == ['S', 'e', 'l', 'f'].as_slice()
        || name == ['s', 'u', 'p', 'e', 'r'].as_slice()
        || name == ['c', 'r', 'a', 't', 'e'].as_slice()
}

/// Whether the name is that of an identifier, raw or not.
pub fn is_ident(name: &[char], raw: bool) -> bool
    ensures { result ≡ names.is_ident raw name.now }
{
    is_name(name) && !(raw && is_reserved(name))
}
