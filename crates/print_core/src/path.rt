//! The tokens of paths, as types and expressions write them.

ghost use Rattle.std.specs.Prelude.{◌≡◌, ◌++◌, map, take, drop, codes, OnOk};
ghost use Rattle.print_core.specs.Marks.{mark, comma, colons, plus, after, joined};
ghost use Rattle.print_core.specs.Paths.{in_style, angled, sum_of, after_type};
ghost use Rattle.print_core.specs.Nodes.{argument_tokens, arguments_tokens, bound_tokens, path_parts, path_tokens, segment_tokens};
ghost use Rattle.print_core.specs.Fronts.{IsFront};

use crate::bound::print_bounds;
use crate::push::{push_colons, push_comma, push_group, push_mark, push_word};
use crate::to_tokens::ToTokens;
use crate::ty::{print_return, print_types};
use base_core::{Items, Mem};
use node_expr::{GenericArgument, Path, PathArguments, PathSegment};
use std::alloc::Global;
use tok_types::{Delimiter, Span, TokenTree};

/// How the arguments in angles stand in a path.
#[derive(Clone, Copy, Debug, PartialEq, Eq)]
pub enum PathStyle {
    /// As in a type: `Vec<T>`
    Plain,
    /// After `::`, as in an expression: `Vec::<T>`
    Turbofish,
}

/// `a::b<T>`, as in a type
impl ToTokens for Path {
    ghost use Rattle.print_core.specs.declared.path.PathStyle.TheVariants.{Plain};

    ghost printing = { path_tokens Plain };

    fn print(&self, alloc: Global, trees: &mut Items<TokenTree>) -> Mem<()> {
        print_path(self, PathStyle::Plain, alloc, trees)
    }
}

/// `b<T>`, as in a type
impl ToTokens for PathSegment {
    ghost use Rattle.print_core.specs.declared.path.PathStyle.TheVariants.{Plain};

    ghost printing = { λ it. segment_tokens it Plain };

    fn print(&self, alloc: Global, trees: &mut Items<TokenTree>) -> Mem<()> {
        print_segment(self, PathStyle::Plain, alloc, trees)
    }
}

/// Nothing, `<T>`, or `(A) -> B`
impl ToTokens for PathArguments {
    ghost use Rattle.tok_types.specs.declared.span.Span.TheVariants.{CallSite};
    ghost use Rattle.print_core.specs.declared.path.PathStyle.TheVariants.{Plain};

    ghost printing = { λ it. arguments_tokens it Plain CallSite };

    fn print(&self, alloc: Global, trees: &mut Items<TokenTree>) -> Mem<()> {
        print_arguments(self, PathStyle::Plain, Span::CallSite, alloc, trees)
    }
}

impl ToTokens for GenericArgument {
    ghost printing = { argument_tokens };

    #[cycle(print)]
    fn print(&self, alloc: Global, trees: &mut Items<TokenTree>) -> Mem<()> {
        match self {
            GenericArgument::Lifetime(it) => it.print(alloc, trees),
            GenericArgument::Ty(it) => it.print(alloc, trees),
            GenericArgument::Const(it) => it.print(alloc, trees),
            GenericArgument::AssocType { ident, ty, span } => {
                ident.print(alloc, trees)?;
                push_mark(trees, &['='], *span)?;
                ty.print(alloc, trees)
            }
            GenericArgument::AssocConst { ident, value, span } => {
                ident.print(alloc, trees)?;
                push_mark(trees, &['='], *span)?;
                value.print(alloc, trees)
            }
            GenericArgument::Constraint {
                ident,
                bounds,
                span,
            } => {
                ident.print(alloc, trees)?;
                push_mark(trees, &[':'], *span)?;
                print_bounds(bounds.as_slice(), *span, alloc, trees)
            }
        }
    }
}

/// Writes a path with no type in front of it.
#[cycle(print)]
pub fn print_path(
    path: &Path,
    style: PathStyle,
    alloc: Global,
    trees: &mut Items<TokenTree>,
) -> Mem<()>
    ensures ok { OnOk result (trees.new ≡ trees.old ++ path_tokens style path.now) }
    ensures front { IsFront trees.old trees.new }
{
    if path.leading_colon {
        push_colons(trees, path.span)?;
    }
    print_segments(path.segments.as_slice(), style, path.span, alloc, trees)
}

/// Writes what follows `<T`: `>::a::b`, or for a position above 0 ` as a::Trait>::b`.
#[cycle(print)]
pub fn print_after_type(
    path: &Path,
    position: usize,
    span: Span,
    style: PathStyle,
    alloc: Global,
    trees: &mut Items<TokenTree>,
) -> Mem<()>
    ensures ok { OnOk result (trees.new ≡ trees.old ++ after_type position span style (path_parts path.now)) }
    ensures front { IsFront trees.old trees.new }
{
    if position == 0 {
        push_mark(trees, &['>'], span)?;
        return print_path(path, style, alloc, trees);
    }
    push_word(alloc, trees, "as", span)?;
    if path.leading_colon {
        push_colons(trees, path.span)?;
    }
    let segments = path.segments.as_slice();
    let (first, others) = segments.split_at(segments.len().min(position));
    print_segments(first, PathStyle::Plain, path.span, alloc, trees)?;
    push_mark(trees, &['>'], span)?;
    print_more_segments(others, style, path.span, alloc, trees)
}

#[cycle(print)]
fn print_segments(
    segments: &[PathSegment],
    style: PathStyle,
    span: Span,
    alloc: Global,
    trees: &mut Items<TokenTree>,
) -> Mem<()>
    ensures ok { OnOk result (trees.new ≡ trees.old ++ joined (colons span) (map (in_style style) (map segment_tokens segments.now))) }
    ensures front { IsFront trees.old trees.new }
{
    if let Some((first, others)) = segments.split_first() {
        print_segment(first, style, alloc, trees)?;
        for segment in others {
            push_colons(trees, span)?;
            print_segment(segment, style, alloc, trees)?;
        }
    }
    Ok(())
}

/// Writes each segment after `::`.
#[cycle(print)]
fn print_more_segments(
    segments: &[PathSegment],
    style: PathStyle,
    span: Span,
    alloc: Global,
    trees: &mut Items<TokenTree>,
) -> Mem<()>
    ensures ok { OnOk result (trees.new ≡ trees.old ++ after (colons span) (map (in_style style) (map segment_tokens segments.now))) }
    ensures front { IsFront trees.old trees.new }
{
    for segment in segments {
        push_colons(trees, span)?;
        print_segment(segment, style, alloc, trees)?;
    }
    Ok(())
}

#[cycle(print)]
fn print_segment(
    segment: &PathSegment,
    style: PathStyle,
    alloc: Global,
    trees: &mut Items<TokenTree>,
) -> Mem<()>
    ensures ok { OnOk result (trees.new ≡ trees.old ++ segment_tokens segment.now style) }
    ensures front { IsFront trees.old trees.new }
{
    segment.ident.print(alloc, trees)?;
    print_arguments(&segment.arguments, style, segment.span, alloc, trees)
}

#[cycle(print)]
fn print_arguments(
    arguments: &PathArguments,
    style: PathStyle,
    around: Span,
    alloc: Global,
    trees: &mut Items<TokenTree>,
) -> Mem<()>
    ensures ok { OnOk result (trees.new ≡ trees.old ++ arguments_tokens arguments.now style around) }
    ensures front { IsFront trees.old trees.new }
{
    match arguments {
        PathArguments::None => Ok(()),
        PathArguments::AngleBracketed(members) => {
            if style == PathStyle::Turbofish {
                push_colons(trees, around)?;
            }
            print_angled(members.as_slice(), around, alloc, trees)
        }
        PathArguments::Parenthesized {
            inputs,
            output,
            span,
        } => {
            let mut inside = Items::new(alloc);
            print_types(inputs.as_slice(), *span, alloc, &mut inside)?;
            push_group(alloc, trees, Delimiter::Parenthesis, inside, *span)?;
            print_return(output, *span, alloc, trees)
        }
    }
}

/// Writes `<A, B>`, or `<>`.
#[cycle(print)]
pub fn print_angled(
    members: &[GenericArgument],
    span: Span,
    alloc: Global,
    trees: &mut Items<TokenTree>,
) -> Mem<()>
    ensures ok { OnOk result (trees.new ≡ trees.old ++ angled (map argument_tokens members.now) span) }
    ensures front { IsFront trees.old trees.new }
{
    push_mark(trees, &['<'], span)?;
    if let Some((first, others)) = members.split_first() {
        first.print(alloc, trees)?;
        for member in others {
            push_comma(trees, span)?;
            member.print(alloc, trees)?;
        }
    }
    push_mark(trees, &['>'], span)
}
