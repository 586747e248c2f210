//! What `==` promises of unlike nested items.

ghost use Rattle.error_core.specs.ErrorView.{ErrorView};
ghost use Rattle.law_equality.specs.IsEqualErased.{IsEqualErased};
ghost use Rattle.law_nested.specs.ErasedErrors.{bad_with, nested_with};

use meta_nested::{MetaNameValueInvalidExpr, NestedMeta};

/// Two nested items, or two bad values, are equal exactly where they are the same without their places and with
/// one error, whichever, in the place of each bad value's own. Without their places alone they need not be the
/// same: two bad values of one path and of the same tokens are equal whatever their errors say.
pub fn equal_nested_items_differ_in_spans_and_errors_alone()
    ensures nested_meta { (error : ErrorView) → IsEqualErased ⟦<NestedMeta as PartialEq>⟧.eq (nested_with error) }
    ensures invalid_expr { (error : ErrorView) → IsEqualErased ⟦<MetaNameValueInvalidExpr as PartialEq>⟧.eq (bad_with error) }
{}
