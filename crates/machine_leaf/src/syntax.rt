//! Pieces of syntax as values.

ghost use Rattle.machine_cells.specs.Cells.{AnswersCell, cell_at};
ghost use Rattle.machine_cells.specs.Leaves.{parsed_cells};

use crate::shown::{Syntax, shown_cell};
use error_core::Result;
use machine_cells::{Call, Callable, IdentString, PreservedStrExpr};
use machine_rows::Parsed;
use machine_value::Value;
use node_core::{Meta, TypeParam, Visibility, WhereClause, WherePredicate};
use node_expr::{
    Expr, ExprArray, ExprPath, ExprRange, FnArg, Path, Type, TypeArray, TypeFnPtr, TypeGroup,
    TypeImplTrait, TypeInfer, TypeNever, TypeParen, TypePath, TypePtr, TypeReference, TypeSlice,
    TypeTraitObject, TypeTuple,
};
use std::alloc::Global;
use tok_types::Ident;

impl Syntax for Ident {}

impl Syntax for IdentString {}

impl Syntax for Path {}

impl Syntax for Expr {}

impl Syntax for PreservedStrExpr {}

impl Syntax for ExprArray {}

impl Syntax for ExprPath {}

impl Syntax for ExprRange {}

impl Syntax for Callable {}

impl Syntax for Meta {}

impl Syntax for FnArg {}

impl Syntax for WherePredicate {}

impl Syntax for TypePath {}

impl Syntax for Type {}

impl Syntax for TypeArray {}

impl Syntax for TypeFnPtr {}

impl Syntax for TypeGroup {}

impl Syntax for TypeImplTrait {}

impl Syntax for TypeInfer {}

impl Syntax for TypeNever {}

impl Syntax for TypeParam {}

impl Syntax for TypeParen {}

impl Syntax for TypePtr {}

impl Syntax for TypeReference {}

impl Syntax for TypeSlice {}

impl Syntax for TypeTraitObject {}

impl Syntax for TypeTuple {}

impl Syntax for Visibility {}

impl Syntax for WhereClause {}

/// What a node that is parsed answers.
pub(crate) fn parsed_cell(alloc: Global, node: Parsed, call: Call<'_>) -> Result<Option<Value>>
    ensures { AnswersCell (λ it. it) result (cell_at (parsed_cells node) call.entry) }
{
    match node {
        Parsed::Type => shown_cell::<Type>(alloc, call),
        Parsed::TypeArray => shown_cell::<TypeArray>(alloc, call),
        Parsed::TypeFnPtr => shown_cell::<TypeFnPtr>(alloc, call),
        Parsed::TypeGroup => shown_cell::<TypeGroup>(alloc, call),
        Parsed::TypeImplTrait => shown_cell::<TypeImplTrait>(alloc, call),
        Parsed::TypeInfer => shown_cell::<TypeInfer>(alloc, call),
        Parsed::TypeNever => shown_cell::<TypeNever>(alloc, call),
        Parsed::TypeParam => shown_cell::<TypeParam>(alloc, call),
        Parsed::TypeParen => shown_cell::<TypeParen>(alloc, call),
        Parsed::TypePtr => shown_cell::<TypePtr>(alloc, call),
        Parsed::TypeReference => shown_cell::<TypeReference>(alloc, call),
        Parsed::TypeSlice => shown_cell::<TypeSlice>(alloc, call),
        Parsed::TypeTraitObject => shown_cell::<TypeTraitObject>(alloc, call),
        Parsed::TypeTuple => shown_cell::<TypeTuple>(alloc, call),
        Parsed::Visibility => shown_cell::<Visibility>(alloc, call),
        Parsed::WhereClause => shown_cell::<WhereClause>(alloc, call),
    }
}
