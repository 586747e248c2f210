//! The functions that options may name.

ghost use Rattle.std.specs.Prelude.{◌≡◌, ◌∷◌, [], IfOk, option_map};
ghost use Rattle.std.specs.Option.{option_copied};
ghost use Rattle.node_make.specs.PathText.{path_text};
ghost use Rattle.machine_host.specs.Seen.{seen_arg};
ghost use Rattle.machine_cells.specs.Values.{natural};
ghost use Rattle.machine_std.specs.Functions as spec;
ghost use Rattle.machine_std.specs.Texts.{trimmed as trimmed_text};

use crate::path_text::is_text_of;
use crate::texts::trimmed;
use base_core::{Mem, Text};
use codegen_program::Decls;
use machine_host::{Arg, Callable, Place, Said, Use, custom};
use machine_rows::{Head, Integer, Leaf, head_of};
use machine_value::Value;
use node_expr::{Expr, Path, Type};
use node_make::path_to_string;
use std::alloc::Global;

/// A function that an option may name.
#[derive(Clone, Copy)]
pub enum Function {
    /// `text::trim`
    Trim,
    /// `text::nonempty`
    Nonempty,
    /// `text::star`
    Star,
    /// `num::one`
    One,
    /// `meta::path_text`
    PathText,
    /// `ident::text`
    IdentText,
    /// `attrs::count`
    Count,
}

/// The function that is offered for the callable at the place.
pub fn function_for(decls: &Decls, call: Option<&Callable>, place: &Place) -> Option<Function>
    ensures { option_map spec.offer_of result ≡ spec.offer_for decls.now (option_copied call.entry) place.now }
{
    let path = path_in(call?)?;
    let leaf = leaf_in(decls, &place.ty)?;
    function_at(place.at, path, leaf)
}

/// The path that the callable is, where no type stands in front.
pub fn path_in(callable: &Callable) -> Option<&Path>
    ensures { option_copied result ≡ spec.path_in callable.now }
{
    match &callable.call {
        Expr::Path(it) if it.qself.is_none() => Some(&it.path),
        _ => None,
    }
}

/// The type of the table that the type is.
pub fn leaf_in(decls: &Decls, ty: &Type) -> Option<Leaf>
    ensures { result ≡ spec.leaf_in decls.now ty.now }
{
    match head_of(decls, ty) {
        Head::Leaf(leaf) => Some(leaf),
        _ => None,
    }
}

/// Whether the path names a function that takes a value, as a `map` and an `and_then` do.
pub fn is_transform(path: &Path) -> bool
    ensures { result ≡ spec.is_transform path.now }
{
    is_text_of(Function::Trim.name(), path) || is_text_of(Function::Nonempty.name(), path)
}

fn function_at(at: Use, path: &Path, leaf: Leaf) -> Option<Function>
    ensures { option_map spec.offer_of result ≡ spec.chosen (path_text path.now) leaf (spec.offered_at at) }
{
    match at {
        Use::Map => Function::Trim.chosen(path, leaf),
        Use::AndThen => Function::Nonempty.chosen(path, leaf),
        Use::Default => default_function(path, leaf),
        Use::With => Function::PathText.chosen(path, leaf),
        Use::Ident => Function::IdentText.chosen(path, leaf),
        Use::Attrs => Function::Count.chosen(path, leaf),
        _ => None,
    }
}

fn default_function(path: &Path, leaf: Leaf) -> Option<Function>
    ensures { option_map spec.offer_of result ≡ spec.chosen (path_text path.now) leaf (spec.offered_at Use.Default) }
{
    match Function::Star.chosen(path, leaf) {
        Some(function) => Some(function),
        None => Function::One.chosen(path, leaf),
    }
}

impl Function {
    /// The function, where the path names it and it gives the type.
    fn chosen(self, path: &Path, leaf: Leaf) -> Option<Function>
        ensures { option_map spec.offer_of result ≡ spec.chosen (path_text path.now) leaf (spec.offer_of self ∷ []) }
    {
        if is_text_of(self.name(), path) && self.gives(leaf) {
            return Some(self);
        }
        None
    }

    fn name(self) -> &'static str
        ensures { result.now ≡ (spec.offer_of self).name }
    {
        match self {
            Function::Trim => "text::trim",
            Function::Nonempty => "text::nonempty",
            Function::Star => "text::star",
            Function::One => "num::one",
            Function::PathText => "meta::path_text",
            Function::IdentText => "ident::text",
            Function::Count => "attrs::count",
        }
    }

    fn gives(self, leaf: Leaf) -> bool
        ensures { result ≡ (spec.offer_of self).gives leaf }
    {
        match self {
            Function::Trim => is_string(leaf),
            Function::Nonempty => is_string(leaf),
            Function::Star => is_string(leaf),
            Function::One => is_integer(leaf),
            Function::PathText => is_string(leaf),
            Function::IdentText => is_string(leaf),
            Function::Count => is_usize(leaf),
        }
    }

    /// What the function answers.
    pub fn answer(self, alloc: Global, arg: Arg<'_>) -> Mem<Said>
        ensures { IfOk result (λ said. said ≡ (spec.offer_of self).answer (seen_arg arg.entry)) }
    {
        match self {
            Function::Trim => trim(alloc, arg),
            Function::Nonempty => nonempty(alloc, arg),
            Function::Star => text_said(alloc, "*"),
            Function::One => Ok(number_said(1)),
            Function::PathText => path_said(alloc, arg),
            Function::IdentText => ident_said(alloc, arg),
            Function::Count => count_said(alloc, arg),
        }
    }
}

fn is_string(leaf: Leaf) -> bool
    ensures { result ≡ spec.is_string leaf }
{
    matches!(leaf, Leaf::String)
}

fn is_integer(leaf: Leaf) -> bool
    ensures { result ≡ spec.is_integer leaf }
{
    matches!(leaf, Leaf::Integer(_))
}

fn is_usize(leaf: Leaf) -> bool
    ensures { result ≡ spec.is_usize leaf }
{
    matches!(leaf, Leaf::Integer(Integer::Usize))
}

/// The answer to an argument of another place.
pub fn unasked(alloc: Global) -> Mem<Said>
    ensures { IfOk result (λ said. said ≡ spec.unasked) }
{
    custom(alloc, "the function is not asked so")
}

fn text_said(alloc: Global, text: &str) -> Mem<Said>
    ensures { IfOk result (λ said. said ≡ spec.text_said text.now) }
{
    Ok(Said::Given(Value::Text(Text::from_str(alloc, text)?)))
}

fn number_said(digits: u128) -> Said
    ensures { result ≡ Said.Given (natural digits) }
{
    let negative = false;
    Said::Given(Value::Int { negative, digits })
}

fn trim(alloc: Global, arg: Arg<'_>) -> Mem<Said>
    ensures { IfOk result (λ said. said ≡ spec.on_text (λ text. spec.text_said (trimmed_text text)) (seen_arg arg.entry)) }
{
    match arg {
        Arg::Value(Value::Text(text)) => text_said(alloc, trimmed(text.as_str())),
        _ => unasked(alloc),
    }
}

fn nonempty(alloc: Global, arg: Arg<'_>) -> Mem<Said>
    ensures { IfOk result (λ said. said ≡ spec.on_text spec.nonempty_said (seen_arg arg.entry)) }
{
    match arg {
        Arg::Value(Value::Text(text)) => nonempty_said(alloc, text.as_str()),
        _ => unasked(alloc),
    }
}

fn nonempty_said(alloc: Global, text: &str) -> Mem<Said>
    ensures { IfOk result (λ said. said ≡ spec.nonempty_said text.now) }
{
    if text.is_empty() {
        return custom(alloc, "must not be empty");
    }
    text_said(alloc, text)
}

fn path_said(alloc: Global, arg: Arg<'_>) -> Mem<Said>
    ensures { IfOk result (λ said. said ≡ spec.path_said (seen_arg arg.entry)) }
{
    match arg {
        Arg::Meta(meta) => {
            let text = path_to_string(alloc, meta.path())?;
            Ok(Said::Given(Value::Text(text)))
        }
        _ => unasked(alloc),
    }
}

fn ident_said(alloc: Global, arg: Arg<'_>) -> Mem<Said>
    ensures { IfOk result (λ said. said ≡ spec.ident_said (seen_arg arg.entry)) }
{
    match arg {
        Arg::Ident(ident) => Ok(Said::Given(Value::Text(ident.to_text(alloc)?))),
        _ => unasked(alloc),
    }
}

fn count_said(alloc: Global, arg: Arg<'_>) -> Mem<Said>
    ensures { IfOk result (λ said. said ≡ spec.count_said (seen_arg arg.entry)) }
{
    match arg {
        Arg::Attrs(attrs) => Ok(number_said(attrs.len() as u128)),
        _ => unasked(alloc),
    }
}
