//! Trees that parsers give, and what is told of each, whatever it is.

use crate::walk::Walk;
use node_core::{Comma, Punctuated};
use node_span::Spanned;
use print_core::ToTokens;
use std::alloc::Global;
use std::hash::Hash;
use std::marker::PhantomData;
use std::test::Fail;
use syn_core::*;
use syn_reread::{
    reread_derive_input, reread_expr, reread_path, reread_type, reread_type_param,
    reread_visibility, reread_where,
};
use tests_checks::{Tested, given, hash, tokens};
use tok_core::to_text;

/// The text that is read, and the one that it is read from again.
pub const SOURCE: u32 = 7;

pub const ELSEWHERE: u32 = 8;

/// A tree that a parser gives.
pub trait Node: TryClone + PartialEq + Hash + Spanned + ToTokens + Drop + Sized {
    fn read(alloc: Global, tokens: &TokenStream) -> Parse<Self>;

    /// The tree of its printing.
    fn again(&self, alloc: Global) -> Parse<Self> {
        Self::read(alloc, &self.to_token_stream(alloc)?)
    }

    /// Its nodes, each by itself, beside those of another reading.
    fn parts(&self, other: &Self, walk: &mut Walk) -> Tested<()> {
        walk.part(self, other)
    }
}

impl Node for Type {
    fn read(alloc: Global, tokens: &TokenStream) -> Parse<Self> {
        parse_type(alloc, tokens)
    }

    fn again(&self, alloc: Global) -> Parse<Self> {
        reread_type(alloc, self)
    }

    fn parts(&self, other: &Self, walk: &mut Walk) -> Tested<()> {
        walk.ty(self, other)
    }
}

impl Node for Expr {
    fn read(alloc: Global, tokens: &TokenStream) -> Parse<Self> {
        parse_expr(alloc, tokens)
    }

    fn again(&self, alloc: Global) -> Parse<Self> {
        reread_expr(alloc, self)
    }

    fn parts(&self, other: &Self, walk: &mut Walk) -> Tested<()> {
        walk.expr(self, other)
    }
}

impl Node for Path {
    fn read(alloc: Global, tokens: &TokenStream) -> Parse<Self> {
        parse_path(alloc, tokens)
    }

    fn again(&self, alloc: Global) -> Parse<Self> {
        reread_path(alloc, self)
    }
}

impl Node for Ident {
    fn read(alloc: Global, tokens: &TokenStream) -> Parse<Self> {
        parse_ident(alloc, tokens)
    }
}

impl Node for DeriveInput {
    fn read(alloc: Global, tokens: &TokenStream) -> Parse<Self> {
        parse_derive_input(alloc, tokens)
    }

    fn again(&self, alloc: Global) -> Parse<Self> {
        reread_derive_input(alloc, self)
    }

    fn parts(&self, other: &Self, walk: &mut Walk) -> Tested<()> {
        walk.item(self, other)
    }
}

impl Node for WhereClause {
    fn read(alloc: Global, tokens: &TokenStream) -> Parse<Self> {
        parse_where(alloc, tokens)
    }

    fn again(&self, alloc: Global) -> Parse<Self> {
        reread_where(alloc, self)
    }
}

impl Node for Visibility {
    fn read(alloc: Global, tokens: &TokenStream) -> Parse<Self> {
        parse_visibility(alloc, tokens)
    }

    fn again(&self, alloc: Global) -> Parse<Self> {
        reread_visibility(alloc, self)
    }
}

impl Node for TypeParam {
    fn read(alloc: Global, tokens: &TokenStream) -> Parse<Self> {
        parse_type_param(alloc, tokens)
    }

    fn again(&self, alloc: Global) -> Parse<Self> {
        reread_type_param(alloc, self)
    }
}

/// What stands in a list, with commas between.
pub trait Listed: TryClone + PartialEq + Hash + Spanned + ToTokens + Drop + Sized {
    fn list(alloc: Global, tokens: &TokenStream) -> Parse<Items<Self>>;

    /// The items that are nodes by themselves, beside those of another reading.
    fn each(items: &Items<Self>, others: &Items<Self>, walk: &mut Walk) -> Tested<()>;
}

impl Listed for FnArg {
    fn list(alloc: Global, tokens: &TokenStream) -> Parse<Items<Self>> {
        parse_fn_args(alloc, tokens)
    }

    fn each(items: &Items<Self>, others: &Items<Self>, walk: &mut Walk) -> Tested<()> {
        walk.each(items, others)
    }
}

impl Listed for Ident {
    fn list(alloc: Global, tokens: &TokenStream) -> Parse<Items<Self>> {
        parse_idents(alloc, tokens)
    }

    fn each(_items: &Items<Self>, _others: &Items<Self>, _walk: &mut Walk) -> Tested<()> {
        Ok(())
    }
}

// For each item by name, `impl Node for Punctuated<Ident, Comma>`, the prover of 13f stops with a fault of its own.
impl<T: Listed> Node for Punctuated<T, Comma> {
    fn read(alloc: Global, tokens: &TokenStream) -> Parse<Self> {
        let items = T::list(alloc, tokens)?;
        let by = PhantomData;
        Ok(Punctuated { items, by })
    }

    fn again(&self, alloc: Global) -> Parse<Self> {
        Self::read(alloc, &self.to_token_stream(alloc)?)
    }

    fn parts(&self, other: &Self, walk: &mut Walk) -> Tested<()> {
        walk.part(self, other)?;
        T::each(&self.items, &other.items, walk)
    }
}

/// The tree of the text, at other places, two bytes later.
fn elsewhere<N: Node>(alloc: Global, text: &str) -> Tested<N> {
    let later = format!(in alloc; "  {text}")?;
    given(
        N::read(alloc, &tokens(alloc, ELSEWHERE, later.as_str())?),
        text,
    )
}

/// The printing of the tree that the text is read as, or the fault. The place is told too where it is not the
/// whole text. The tree equals that of its printing, and the one that is read elsewhere.
pub fn told<N: Node>(alloc: Global, text: &str) -> Tested<Text> {
    let here = tokens(alloc, SOURCE, text)?;
    match N::read(alloc, &here) {
        Ok(node) => told_of(alloc, text, &node),
        Err(fail) => fault(alloc, &fail),
    }
}

fn told_of<N: Node>(alloc: Global, text: &str, node: &N) -> Tested<Text> {
    are_alike(alloc, text, node, &given(node.again(alloc), text)?)?;
    are_alike(alloc, text, node, &elsewhere(alloc, text)?)?;
    shown(alloc, text, node, Some(text.trim()))
}

/// The tree that the text has to be read as.
pub fn read<N: Node>(alloc: Global, text: &str) -> Tested<N> {
    given(N::read(alloc, &tokens(alloc, SOURCE, text)?), text)
}

/// The nodes of the tree, each by itself.
pub fn parts<N: Node>(alloc: Global, text: &str) -> Tested<Text> {
    let node: N = read(alloc, text)?;
    parts_of(alloc, text, &node, &elsewhere(alloc, text)?)
}

pub fn parts_of<N: Node>(alloc: Global, text: &str, node: &N, other: &N) -> Tested<Text> {
    let mut walk = Walk::new(alloc, text);
    node.parts(other, &mut walk)?;
    Ok(walk.told)
}

/// A copy of the node equals it and stands where it does; the other equals it, and the two hash alike.
pub fn are_alike<N: TryClone + PartialEq + Hash + Spanned + Drop>(
    alloc: Global,
    text: &str,
    node: &N,
    other: &N,
) -> Tested<()> {
    let copy = node.try_clone(alloc)?;
    let copied = copy == *node && copy.spanned() == node.spanned();
    if copied && *other == *node && hash(other) == hash(node) {
        return Ok(());
    }
    Err(Fail::new(format_args!("{text}: another reading, or a copy ({copied}), differs")))
}

/// The printing of the node, and its place where it is another than is expected, else than that of the printing.
pub fn shown<N: Spanned + ToTokens>(
    alloc: Global,
    text: &str,
    node: &N,
    expected: Option<&str>,
) -> Tested<Text> {
    let mut shown = printing(alloc, node)?;
    let place = part(text, node.spanned());
    if place != expected.unwrap_or(shown.as_str()) {
        shown.push_str(" at ")?;
        shown.push_str(place)?;
    }
    Ok(shown)
}

pub fn printing<N: ToTokens>(alloc: Global, node: &N) -> Tested<Text> {
    let tokens = node.to_token_stream(alloc)?;
    Ok(to_text(alloc, &tokens)?)
}

/// What stands there in the text.
pub fn part(text: &str, place: Span) -> &str {
    match place {
        Span::At {
            source: SOURCE,
            start,
            end,
        } => text
            .get(start as usize..end as usize)
            .unwrap_or("no part of the text"),
        Span::At { .. } => "another text",
        Span::CallSite => "",
    }
}

pub fn push_place(alloc: Global, told: &mut Text, place: Span) -> Tested<()> {
    match place {
        Span::At {
            source: SOURCE,
            start,
            end,
        } => told.push_str(format!(in alloc; "{start}..{end}")?.as_str())?,
        Span::At { .. } => told.push_str("another text")?,
        Span::CallSite => told.push_str("nowhere")?,
    }
    Ok(())
}

/// The place and the text of a fault.
pub fn fault(alloc: Global, fail: &ParseFail) -> Tested<Text> {
    let ParseFail::Syn(error) = fail else {
        return Err(Fail::new(format_args!("no memory is left")));
    };
    let mut told = Text::from_str(alloc, "refused at ")?;
    push_place(alloc, &mut told, error.first.0)?;
    told.push_str(": ")?;
    told.push_str(error.first.1.as_str())?;
    told.push_str(if error.more.is_empty() {
        ""
    } else {
        ", and more"
    })?;
    Ok(told)
}
