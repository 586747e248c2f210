//! Lists without marks between their items.

ghost use Rattle.std.specs.Prelude.{◌≡◌};
ghost use Rattle.syn_grammar.specs.Reads.{Gives};
ghost use Rattle.syn_items.specs.Lists as spec;

use base_core::Items;
use std::alloc::Global;
use syn_grammar::{Cursor, ReadFail, is_mark};
use syn_lists::ReadItem;
use tok_types::TokenTree;

/// What comes next as long as a list goes on.
#[derive(Clone, Copy, Debug, PartialEq, Eq)]
pub enum While {
    /// A `#`.
    Hash,
    /// Any token.
    Token,
}

fn goes_on(which: While, trees: &[TokenTree]) -> bool
    ensures { result ≡ spec.goes_on which trees.now }
{
    match which {
        While::Hash => is_mark('#', trees),
        While::Token => !trees.is_empty(),
    }
}

/// Items as long as the list goes on.
pub(crate) fn each_while<T: Drop, P: ReadItem<T>>(
    alloc: Global,
    tokens: &mut Cursor<'_>,
    which: While,
    item: &mut P,
) -> Result<Items<T>, ReadFail>
    requires { P.ready item.old }
    ensures { Gives (spec.each_while (spec.goes_on which) (P.reader item.old) tokens.old) result tokens.new }
{
    let mut found = Items::new(alloc);
    for _turn in 0..tokens.left() {
        if !goes_on(which, tokens.rest()) {
            return Ok(found);
        }
        let next = item.read(tokens)?;
        found.push(next)?;
    }
    if tokens.at_end() {
        Ok(found)
    } else {
        Err(ReadFail::Syntax)
    }
}
