//! The tokens of members.

ghost use Rattle.std.specs.Prelude.{◌≡◌, map, IfOk};
ghost use Rattle.print_core.specs.Marks.{comma, ended, joined};
ghost use Rattle.body_core.specs.Tokens.{container_tokens};

use crate::ast::fields::Fields;
use base_core::{Items, Mem};
use node_core::Style;
use print_core::{ToTokens, push_comma, push_group};
use std::alloc::Global;
use tok_types::{Delimiter, Span, TokenTree};

/// `{ a, b, }`, `(a, b)`, or nothing
impl<T: ToTokens> ToTokens for Fields<T> {
    ghost printing = { container_tokens T.printing };

    fn print(&self, alloc: Global, trees: &mut Items<TokenTree>) -> Mem<()> {
        let span = self.place().unwrap_or(Span::CallSite);
        match self.style {
            Style::Struct => {
                let inside = print_ended(self.fields.as_slice(), span, alloc)?;
                push_group(alloc, trees, Delimiter::Brace, inside, span)
            }
            Style::Tuple => {
                let inside = print_joined(self.fields.as_slice(), span, alloc)?;
                push_group(alloc, trees, Delimiter::Parenthesis, inside, span)
            }
            Style::Unit => Ok(()),
        }
    }
}

/// The members, each with a comma behind it.
fn print_ended<T: ToTokens>(members: &[T], span: Span, alloc: Global) -> Mem<Items<TokenTree>>
    ensures { IfOk result (λ trees. trees ≡ ended (comma span) (map T.printing members.now)) }
{
    let mut trees = Items::new(alloc);
    for member in members {
        member.print(alloc, &mut trees)?;
        push_comma(&mut trees, span)?;
    }
    Ok(trees)
}

/// The members, with commas between them.
fn print_joined<T: ToTokens>(members: &[T], span: Span, alloc: Global) -> Mem<Items<TokenTree>>
    ensures { IfOk result (λ trees. trees ≡ joined (comma span) (map T.printing members.now)) }
{
    let mut trees = Items::new(alloc);
    if let Some((first, others)) = members.split_first() {
        first.print(alloc, &mut trees)?;
        for member in others {
            push_comma(&mut trees, span)?;
            member.print(alloc, &mut trees)?;
        }
    }
    Ok(trees)
}
