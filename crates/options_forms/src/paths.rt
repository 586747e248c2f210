//! Paths that are given as options and begin with the name by which generated code calls `darling`.

ghost use Rattle.std.specs.Prelude.{◌≡◌, ◌++◌, OnOk};
ghost use Rattle.options_forms.specs.Forms as spec;

use base_core::{Items, Mem};
use codegen_core::{Unsupported, push_generated_call, push_generated_path};
use codegen_program::{Callable, PostfixTransform};
use options_core::DefaultExpression;

/// Adds the start of the path that is called, where it is such a path.
pub(crate) fn push_call(callable: &Option<Callable>, places: &mut Items<Unsupported>) -> Mem<()>
    ensures { OnOk result (places.new ≡ places.old ++ spec.call_forms callable.now) }
{
    match callable {
        Some(callable) => push_generated_call(&callable.call, places),
        None => Ok(()),
    }
}

/// The same of the function that a `map` or an `and_then` names.
pub(crate) fn push_post(post: &Option<PostfixTransform>, places: &mut Items<Unsupported>) -> Mem<()>
    ensures { OnOk result (places.new ≡ places.old ++ spec.post_forms post.now) }
{
    match post {
        Some(post) => push_generated_path(&post.function, places),
        None => Ok(()),
    }
}

/// The same of the function that makes a default.
pub(crate) fn push_default(
    default: &Option<DefaultExpression>,
    places: &mut Items<Unsupported>,
) -> Mem<()>
    ensures { OnOk result (places.new ≡ places.old ++ spec.default_forms default.now) }
{
    match default {
        Some(DefaultExpression::Explicit(callable)) => push_generated_call(&callable.call, places),
        Some(DefaultExpression::Inherit) => Ok(()),
        Some(DefaultExpression::Trait { span: _ }) => Ok(()),
        None => Ok(()),
    }
}
