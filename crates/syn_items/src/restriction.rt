//! Visibilities: `pub`, `pub(crate)`, `pub(in a::b)`, or nothing.

ghost use Rattle.std.specs.Prelude.{◌≡◌, IfOk};
ghost use Rattle.syn_grammar.specs.Reads.{Gives};
ghost use Rattle.syn_items.specs.Visibility as spec;

use crate::look::scope_word;
use base_core::{Items, Mem, TryClone};
use node_core::Visibility;
use node_expr::{Path, PathArguments, PathSegment};
use std::alloc::Global;
use syn_grammar::{Cursor, ReadFail, Word, contents_of, is_group};
use syn_lists::all_of;
use syn_rules::read_path;
use syn_types::MAX_DEPTH;
use tok_types::{Delimiter, Ident, TokenTree};

/// The path of one word.
fn path_of_word(alloc: Global, ident: Ident) -> Mem<Path>
    ensures { IfOk result (λ path. path ≡ spec.path_of_word ident) }
{
    let span = ident.span;
    let segment = PathSegment {
        ident,
        arguments: PathArguments::None,
        span,
    };
    Ok(Path {
        leading_colon: false,
        segments: Items::of(alloc, segment)?,
        span,
    })
}

/// `crate`, `self` or `super`
fn scope(alloc: Global, tokens: &mut Cursor<'_>) -> Result<Path, ReadFail>
    ensures { Gives (spec.scope tokens.old) result tokens.new }
{
    let Some(word) = scope_word(tokens.rest()) else {
        return Err(ReadFail::Syntax);
    };
    let word = word.try_clone(alloc)?;
    tokens.skip();
    Ok(path_of_word(alloc, word)?)
}

/// What stands in the parentheses: `crate`, `self`, `super`, or `in` and a path. It is told whether
/// `in` does.
#[tactic(auto, unfolding(crate::specs::Visibility::restriction))]
fn restriction(alloc: Global, tokens: &mut Cursor<'_>) -> Result<(bool, Path), ReadFail>
    ensures { Gives (spec.restriction tokens.old) result tokens.new }
{
    if tokens.eat_word(Word::In) {
        let (path, _) = read_path(alloc, tokens, MAX_DEPTH, true)?;
        return Ok((true, path));
    }
    let path = scope(alloc, tokens)?;
    Ok((false, path))
}

/// The restriction in the parentheses that come next, if all in them is one.
#[tactic(auto, unfolding(crate::specs::Visibility::restriction_in))]
fn restriction_in(alloc: Global, trees: &[TokenTree]) -> Mem<Option<(bool, Path)>>
    ensures { IfOk result (λ found. found ≡ spec.restriction_in trees.now) }
{
    if !is_group(Delimiter::Parenthesis, trees) {
        return Ok(None);
    }
    let mut tokens = Cursor::new(contents_of(trees));
    let read = restriction(alloc, &mut tokens);
    all_of(read, &tokens)
}

/// `pub`, `pub(crate)`, `pub(in a::b)`, or nothing. A restriction that may follow `pub` is taken.
#[tactic(auto, unfolding(crate::specs::Visibility::visibility))]
pub fn visibility(alloc: Global, tokens: &mut Cursor<'_>) -> Result<Visibility, ReadFail>
    ensures { Gives (spec.visibility tokens.old) result tokens.new }
{
    let start = tokens.here();
    if !tokens.eat_word(Word::Pub) {
        return Ok(Visibility::Inherited);
    }
    let Some((in_token, path)) = restriction_in(alloc, tokens.rest())? else {
        return Ok(Visibility::Public { span: start });
    };
    tokens.skip();
    let span = tokens.upto(start);
    Ok(Visibility::Restricted {
        in_token,
        path,
        span,
    })
}
