//! The rules of expressions, over those of paths and types.

use syn_types::Rules;

/// The rules of expressions, whose paths and types other rules read.
#[derive(Drop)]
pub(crate) struct ExprRules<R> {
    pub rules: Rules<R>,
}
