//! Errors that speak of nodes.

ghost use Rattle.std.specs.Prelude.{◌≡◌, [], IfOk};
ghost use Rattle.error_fault.specs.Fault.{at_span};
ghost use Rattle.error_fault.specs.Faults.{span_one, at};
ghost use Rattle.error_fault.specs.Kind.{set_of};
ghost use Rattle.node_make.specs.PathText.{path_text};
ghost use Rattle.node_span.specs.Spanned.{expr_span, lit_span};
ghost use Rattle.error_core.specs.Changes.{leaf, located, spanned};
ghost use Rattle.error_core.specs.NodeKinds.{expr_kind, lit_kind};
ghost use Rattle.error_core.specs.ErrorView.{One, leaves};

use crate::error::Error;
use base_core::{Mem, Text};
use error_fault::FaultKind;
use node_expr::{Expr, Lit, LitStr, Path};
use node_make::path_to_string;
use node_span::Spanned;
use std::alloc::Global;

/// Errors that speak of nodes. A path stands in them by its text, without a leading `::` and without
/// arguments.
impl Error {
    /// Puts the root at the place of the node, where it has none; children keep theirs.
    pub fn with_span<T: Spanned>(self, node: &T) -> Error
        ensures told { result ≡ spanned self (T.span_of node.now) }
        ensures leaves { leaves result ≡ span_one (leaves self) (T.span_of node.now) }
    {
        self.with_span_at(node.spanned())
    }

    /// The error one field further in. Want of memory drops the error.
    pub fn at_path(self, alloc: Global, path: &Path) -> Mem<Error>
        ensures told { IfOk result (λ error. error ≡ located self (path_text path.now)) }
        ensures leaves { IfOk result (λ error. leaves error ≡ at (leaves self) (path_text path.now)) }
    {
        let location = path_to_string(alloc, path)?;
        self.at(alloc, location.as_str())
    }

    /// A field that stands more than once.
    pub fn duplicate_field_path(alloc: Global, path: &Path) -> Mem<Error>
        ensures { IfOk result (λ error. error ≡ leaf (FaultKind.DuplicateField (path_text path.now))) }
    {
        let name = path_to_string(alloc, path)?;
        Error::duplicate_field(alloc, name.as_str())
    }

    /// A field that is not known, with no alternatives.
    pub fn unknown_field_path(alloc: Global, path: &Path) -> Mem<Error>
        ensures { IfOk result (λ error. error
            ≡ leaf (FaultKind.UnknownField (path_text path.now) (set_of []))) }
    {
        let name = path_to_string(alloc, path)?;
        Error::unknown_field(alloc, name.as_str())
    }

    /// A field that is not known, where `alts` are.
    pub fn unknown_field_path_with_alts(alloc: Global, field: &Path, alts: &[Text]) -> Mem<Error>
        ensures { IfOk result (λ error. error
            ≡ leaf (FaultKind.UnknownField (path_text field.now) (set_of alts.now))) }
    {
        let name = path_to_string(alloc, field)?;
        Error::unknown_field_with_alts(alloc, name.as_str(), alts)
    }

    /// An expression of a kind that is not read, at its place.
    pub fn unexpected_expr_type(alloc: Global, expr: &Expr) -> Mem<Error>
        ensures { IfOk result (λ error. error
            ≡ One (at_span (FaultKind.UnexpectedType (expr_kind expr.now)) (expr_span expr.now))) }
    {
        Ok(Error::unexpected_type(alloc, expr_kind(expr))?.with_span(expr))
    }

    /// A literal of a kind that is not read, at its place.
    pub fn unexpected_lit_type(alloc: Global, lit: &Lit) -> Mem<Error>
        ensures { IfOk result (λ error. error
            ≡ One (at_span (FaultKind.UnexpectedType (lit_kind lit.now)) (lit_span lit.now))) }
    {
        Ok(Error::unexpected_type(alloc, lit_kind(lit))?.with_span(lit))
    }

    /// A string that is no value that is known, at its place.
    pub fn unknown_lit_str_value(alloc: Global, value: &LitStr) -> Mem<Error>
        ensures { IfOk result (λ error. error
            ≡ One (at_span (FaultKind.UnknownValue value.now.value (set_of [])) value.now.span)) }
    {
        Ok(Error::unknown_value(alloc, value.value.as_str())?.with_span(value))
    }
}

/// The name that faults give to the kind of the expression.
fn expr_kind(expr: &Expr) -> &'static str
    ensures { result.now ≡ expr_kind expr.now }
{
    match expr {
        Expr::Lit(_) => "lit",
        Expr::Path(_) => "path",
        Expr::Array(_) => "array",
        Expr::Repeat { .. } => "repeat",
        Expr::Tuple { .. } => "tuple",
        Expr::Paren { .. } => "paren",
        Expr::Group { .. } => "group",
        Expr::Unary { .. } => "unary",
        Expr::Reference { .. } => "reference",
        Expr::Binary { .. } => "binary",
        Expr::Call { .. } => "call",
        Expr::MethodCall { .. } => "method_call",
        Expr::Field { .. } => "field",
        Expr::Index { .. } => "index",
        Expr::Try { .. } => "try",
        Expr::Range(_) => "range",
        Expr::Closure(_) => "closure",
        Expr::Block { .. } => "block",
        Expr::Infer { .. } => "infer",
        Expr::Verbatim(_) => "verbatim",
    }
}

/// The name that faults give to the kind of the literal.
fn lit_kind(lit: &Lit) -> &'static str
    ensures { result.now ≡ lit_kind lit.now }
{
    match lit {
        Lit::Bool(_) => "bool",
        Lit::Byte(_) => "byte",
        Lit::ByteStr(_) => "byte string",
        Lit::Char(_) => "char",
        Lit::Float(_) => "float",
        Lit::Int(_) => "int",
        Lit::Str(_) => "string",
        Lit::Verbatim(_) => "verbatim",
    }
}
