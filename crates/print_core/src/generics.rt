//! The tokens of parameters and `where` clauses.

ghost use Rattle.std.specs.Prelude.{◌≡◌, ◌++◌, ◌↔◌, IsTrue, OnOk};
ghost use Rattle.print_core.specs.Items.{begins_with_binder, const_param_tokens, generics_tokens, lifetime_param_tokens, param_tokens, predicate_binder, predicate_tokens, type_param_tokens, where_tokens};
ghost use Rattle.print_core.specs.Fronts.{IsFront};

use crate::bound::{print_bounds, print_for};
use crate::list::{
    print_all, print_in_angles, print_maybe_bounds, print_maybe_equal, print_separated,
};
use crate::push::{push_mark, push_word};
use crate::to_tokens::ToTokens;
use base_core::{Items, Mem};
use node_core::{
    ConstParam, GenericParam, Generics, LifetimeParam, TypeParam, WhereClause, WherePredicate,
};
use node_expr::Type;
use std::alloc::Global;
use tok_types::{Lifetime, Span, TokenTree};

/// `<'a, T, const N: usize>`, or nothing without parameters. The where clause prints apart.
impl ToTokens for Generics {
    ghost printing = { generics_tokens };

    fn print(&self, alloc: Global, trees: &mut Items<TokenTree>) -> Mem<()> {
        if self.params.is_empty() {
            return Ok(());
        }
        print_in_angles(self.params.as_slice(), self.span, alloc, trees)
    }
}

impl ToTokens for GenericParam {
    ghost printing = { param_tokens };

    fn print(&self, alloc: Global, trees: &mut Items<TokenTree>) -> Mem<()> {
        match self {
            GenericParam::Lifetime(it) => it.print(alloc, trees),
            GenericParam::Ty(it) => it.print(alloc, trees),
            GenericParam::Const(it) => it.print(alloc, trees),
        }
    }
}

/// `'a: 'b + 'c`
impl ToTokens for LifetimeParam {
    ghost printing = { lifetime_param_tokens };

    fn print(&self, alloc: Global, trees: &mut Items<TokenTree>) -> Mem<()> {
        print_all(self.attrs.as_slice(), alloc, trees)?;
        self.lifetime.print(alloc, trees)?;
        print_maybe_bounds(self.bounds.as_slice(), self.span, alloc, trees)
    }
}

/// `T: A + B = C`
impl ToTokens for TypeParam {
    ghost printing = { type_param_tokens };

    fn print(&self, alloc: Global, trees: &mut Items<TokenTree>) -> Mem<()> {
        print_all(self.attrs.as_slice(), alloc, trees)?;
        self.ident.print(alloc, trees)?;
        print_maybe_bounds(self.bounds.as_slice(), self.span, alloc, trees)?;
        print_maybe_equal(&self.default, self.span, alloc, trees)
    }
}

/// `const N: usize = 8`
impl ToTokens for ConstParam {
    ghost printing = { const_param_tokens };

    fn print(&self, alloc: Global, trees: &mut Items<TokenTree>) -> Mem<()> {
        print_all(self.attrs.as_slice(), alloc, trees)?;
        push_word(alloc, trees, "const", self.span)?;
        self.ident.print(alloc, trees)?;
        push_mark(trees, &[':'], self.span)?;
        self.ty.print(alloc, trees)?;
        print_maybe_equal(&self.default, self.span, alloc, trees)
    }
}

/// `where 'a: 'b, T: Copy`
impl ToTokens for WhereClause {
    ghost printing = { where_tokens };

    fn print(&self, alloc: Global, trees: &mut Items<TokenTree>) -> Mem<()> {
        push_word(alloc, trees, "where", self.span)?;
        print_separated(self.predicates.as_slice(), ',', self.span, alloc, trees)
    }
}

/// `'a: 'b + 'c`, `for<'a> &'a T: A + B`
impl ToTokens for WherePredicate {
    ghost printing = { predicate_tokens };

    fn print(&self, alloc: Global, trees: &mut Items<TokenTree>) -> Mem<()> {
        match self {
            WherePredicate::Lifetime {
                lifetime,
                bounds,
                span,
            } => {
                lifetime.print(alloc, trees)?;
                push_mark(trees, &[':'], *span)?;
                print_separated(bounds.as_slice(), '+', *span, alloc, trees)
            }
            WherePredicate::Ty {
                lifetimes,
                bounded_ty,
                bounds,
                span,
            } => {
                print_predicate_binder(lifetimes.as_slice(), bounded_ty, *span, alloc, trees)?;
                bounded_ty.print(alloc, trees)?;
                push_mark(trees, &[':'], *span)?;
                print_bounds(bounds.as_slice(), *span, alloc, trees)
            }
        }
    }
}

/// Writes the binder of a predicate. An empty one prints `for<>` before a type that begins with a
/// binder of its own, which would else be read as the predicate's.
fn print_predicate_binder(
    lifetimes: &[Lifetime],
    bounded: &Type,
    span: Span,
    alloc: Global,
    trees: &mut Items<TokenTree>,
) -> Mem<()>
    ensures ok { OnOk result (trees.new ≡ trees.old ++ predicate_binder lifetimes.now bounded.now span) }
    ensures front { IsFront trees.old trees.new }
{
    if lifetimes.is_empty() && !begins_with_binder(bounded) {
        return Ok(());
    }
    print_for(lifetimes, span, alloc, trees)
}

/// Whether the type's first token is the `for` of its own binder.
fn begins_with_binder(ty: &Type) -> bool
    ensures { result ≡ begins_with_binder ty.now }
{
    match ty {
        Type::FnPtr(it) => !it.lifetimes.is_empty(),
        _ => false,
    }
}
