//! Calls that take a tree or tokens: a row is `kind | text => answer`.

use crate::node::{SOURCE, push_place, read};
use node_core::{DeriveInput, Expr, Mem, Path, Span, Text, Type, Visibility, path_to_string};
use node_span::Spanned;
use std::alloc::Global;
use tests_checks::{Tested, no_kind, tokens};

// What a path is told as, or answers; whether an expression is one of a kind; and places. A node without tokens
// stands nowhere, and one without a span stands where its parts do.
pub const CALLS: &str = "path_to_string | a :: b => a::b
path_to_string | :: a :: r#type :: B < C > => a::r#type::B
path_to_string | a => a
get_ident | a => a
get_ident | r#type => r#type
get_ident | :: a => none
get_ident | a :: b => none
get_ident | a < B > => none
is_ident a | a => true
is_ident r#type | r#type => true
is_ident b | a => false
is_ident a | r#a => false
is_ident r#a | a => false
is_ident type | r#type => false
is_ident a | :: a => false
is_ident a | a :: b => false
is_ident a | a < B > => false
array expr | [a] => read
path expr | a :: b => read
path expr | < A > :: b => read
range expr | a .. b => read
type |  u8 u8  => refused at 1..6: expected a type
path |  u8 u8  => refused at 1..6: expected a path
ident |  u8 u8  => refused at 1..6: expected an identifier
type |   => refused at nowhere: expected a type
place of tokens |  => nowhere
place of tokens |    'a, [] => 3..9
place of a verbatim expression |    'a, [] => 3..9
place of arguments | A < 'a , Bc > => 4..11
place of arguments | A => nowhere
place of an output | fn () -> A => 9..10
place of an optional type |  A => 1..2
place of generics | struct S <> ; => nowhere
place of a visibility |  => nowhere";

// Expressions of other kinds.
pub const NO_CALLS: &str = "path expr | [a]
range expr | [a]
array expr | [a ; 2]
path expr | [a ; 2]
range expr | [a ; 2]
array expr | a :: b
range expr | a :: b
array expr | < A > :: b
range expr | < A > :: b
array expr | a .. b
path expr | a .. b
array expr | (a)
path expr | (a)
range expr | (a)
array expr | a + b
path expr | a + b
range expr | a + b";

/// What the call tells of the path.
pub fn of_path(alloc: Global, call: &str, path: &Path) -> Mem<Text> {
    match call {
        "path_to_string" => path_to_string(alloc, path),
        "get_ident" => match path.get_ident() {
            Some(ident) => ident.to_text(alloc),
            None => Text::from_str(alloc, "none"),
        },
        _ => {
            let name = call.strip_prefix("is_ident ").unwrap_or("");
            Text::from_str(alloc, if path.is_ident(name) { "true" } else { "false" })
        }
    }
}

fn span_of(alloc: Global, node: &str, text: &str) -> Tested<Span> {
    Ok(match node {
        "tokens" => tokens(alloc, SOURCE, text)?.spanned(),
        "a verbatim expression" => Expr::Verbatim(tokens(alloc, SOURCE, text)?).spanned(),
        "arguments" => match read::<Path>(alloc, text)?.segments.last() {
            Some(segment) => segment.arguments.spanned(),
            None => return no_kind(text),
        },
        "an output" => match &read::<Type>(alloc, text)? {
            Type::FnPtr(it) => it.output.spanned(),
            _ => return no_kind(text),
        },
        "an optional type" => Some(read::<Type>(alloc, text)?).spanned(),
        "generics" => read::<DeriveInput>(alloc, text)?.generics.spanned(),
        "a visibility" => read::<Visibility>(alloc, text)?.spanned(),
        _ => return no_kind(node),
    })
}

/// Where the node of the text stands.
pub fn place_of(alloc: Global, node: &str, text: &str) -> Tested<Text> {
    let span = span_of(alloc, node, text)?;
    let mut told = Text::new(alloc);
    push_place(alloc, &mut told, span)?;
    Ok(told)
}
