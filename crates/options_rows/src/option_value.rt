//! What the item of an option is read as.

ghost use Rattle.std.specs.Prelude.{◌≡◌, IfOk};
ghost use Rattle.error_core.specs.ErrorView.{One};
ghost use Rattle.options_rows.specs.Values as spec;

use base_core::{Items, Mem, Text, TryClone};
use codegen_program::PostfixTransform;
use error_core::{Error, Fail, Result};
use node_core::{Meta, WherePredicate};
use node_expr::Path;
use options_types::{
    Callable, DataShape, DefaultExpression, DeriveInputShapeSet, Flag, ForwardAttrsFilter,
    FromMeta, PathList, SpannedValue, VariantShapes,
};
use std::alloc::Global;
use tok_types::{Ident, Span};

/// What the item of an option is read as. A contract sees the whole value.
pub trait OptionValue: Sized + Drop {
    ghost use Rattle.error_fault.specs.Outcome.{Outcome};
    ghost use Rattle.error_core.specs.Answers.{Answers};
    ghost use Rattle.node_core.specs.declared.attr.Meta.{Meta};

    /// What an item is to the option: a value, or the faults.
    ghost meaning: { Meta → Outcome Self };

    fn of_item(alloc: Global, item: &Meta) -> Result<Self>
        ensures { Answers (λ it. it) result (meaning item.now) };
}

impl OptionValue for bool {
    ghost use Rattle.options_rows.specs.Values.{bool_of};

    ghost meaning = { bool_of };

    #[tactic(auto, unfolding(crate::specs::Values::bool_of))]
    fn of_item(alloc: Global, item: &Meta) -> Result<bool> {
        bool::from_meta(alloc, item)
    }
}

impl OptionValue for Text {
    ghost use Rattle.options_rows.specs.Values.{text_of};

    ghost meaning = { text_of };

    #[tactic(auto, unfolding(crate::specs::Values::text_of))]
    fn of_item(alloc: Global, item: &Meta) -> Result<Text> {
        Text::from_meta(alloc, item)
    }
}

impl OptionValue for Path {
    ghost use Rattle.options_rows.specs.Values.{path_of};

    ghost meaning = { path_of };

    #[tactic(auto, unfolding(crate::specs::Values::path_of))]
    fn of_item(alloc: Global, item: &Meta) -> Result<Path> {
        Path::from_meta(alloc, item)
    }
}

impl OptionValue for PathList {
    ghost use Rattle.options_rows.specs.Values.{paths_of};

    ghost meaning = { paths_of };

    #[tactic(auto, unfolding(crate::specs::Values::paths_of), using(crate::proofs::ReadLemmas::answers_paths))]
    fn of_item(alloc: Global, item: &Meta) -> Result<PathList> {
        PathList::from_meta(alloc, item)
    }
}

impl OptionValue for Callable {
    ghost use Rattle.options_rows.specs.Values.{callable_of};

    ghost meaning = { callable_of };

    #[tactic(auto, unfolding(crate::specs::Values::callable_of), using(crate::proofs::ReadLemmas::answers_callable))]
    fn of_item(alloc: Global, item: &Meta) -> Result<Callable> {
        Callable::from_meta(alloc, item)
    }
}

impl OptionValue for SpannedValue<bool> {
    ghost use Rattle.options_rows.specs.Values.{spanned_bool_of};

    ghost meaning = { spanned_bool_of };

    #[tactic(auto, unfolding(crate::specs::Values::spanned_bool_of))]
    fn of_item(alloc: Global, item: &Meta) -> Result<SpannedValue<bool>> {
        SpannedValue::from_meta(alloc, item)
    }
}

/// A flag that is there: where its word stands.
impl OptionValue for Span {
    ghost use Rattle.options_rows.specs.Values.{present_of};

    ghost meaning = { present_of };

    #[tactic(auto, unfolding(crate::specs::Values::present_of))]
    fn of_item(alloc: Global, item: &Meta) -> Result<Span> {
        Ok(Flag::from_meta(alloc, item)?.span())
    }
}

impl OptionValue for DefaultExpression {
    ghost use Rattle.options_rows.specs.Values.{default_of};

    ghost meaning = { default_of };

    #[tactic(auto, unfolding(crate::specs::Values::default_of))]
    fn of_item(alloc: Global, item: &Meta) -> Result<DefaultExpression> {
        DefaultExpression::from_meta(alloc, item)
    }
}

impl OptionValue for ForwardAttrsFilter {
    ghost use Rattle.options_rows.specs.Values.{forward_of};

    ghost meaning = { forward_of };

    #[tactic(auto, unfolding(crate::specs::Values::forward_of))]
    fn of_item(alloc: Global, item: &Meta) -> Result<ForwardAttrsFilter> {
        ForwardAttrsFilter::from_meta(alloc, item)
    }
}

impl OptionValue for DeriveInputShapeSet {
    ghost use Rattle.options_rows.specs.Values.{shapes_of};

    ghost meaning = { shapes_of };

    #[tactic(auto, unfolding(crate::specs::Values::shapes_of))]
    fn of_item(alloc: Global, item: &Meta) -> Result<DeriveInputShapeSet> {
        DeriveInputShapeSet::from_meta(alloc, item)
    }
}

impl OptionValue for DataShape {
    ghost use Rattle.options_rows.specs.Values.{variant_shapes_of};

    ghost meaning = { variant_shapes_of };

    #[tactic(auto, unfolding(crate::specs::Values::variant_shapes_of))]
    fn of_item(alloc: Global, item: &Meta) -> Result<DataShape> {
        Ok(VariantShapes::from_meta(alloc, item)?.0)
    }
}

impl OptionValue for Items<WherePredicate> {
    ghost use Rattle.options_rows.specs.Values.{predicates_of};

    ghost meaning = { predicates_of };

    #[tactic(auto, unfolding(crate::specs::Values::predicates_of))]
    fn of_item(alloc: Global, item: &Meta) -> Result<Items<WherePredicate>> {
        let predicates: Vec<WherePredicate> = Vec::from_meta(alloc, item)?;
        Ok(Items::from_vec(predicates))
    }
}

/// The function that `map` or `and_then` names, with which of them it is.
impl OptionValue for PostfixTransform {
    ghost use Rattle.options_rows.specs.Values.{transform_of};

    ghost meaning = { transform_of };

    #[tactic(auto, unfolding(crate::specs::Values::transform_of))]
    fn of_item(alloc: Global, item: &Meta) -> Result<PostfixTransform> {
        let Some(transformer) = item.path().get_ident() else {
            return Err(Fail::Faults(unknown_error(alloc, item)?));
        };
        let function = Path::from_meta(alloc, item)?;
        let transformer = transformer.try_clone(alloc)?;
        Ok(PostfixTransform::new(transformer, function))
    }
}

/// An item that is of no option.
#[tactic(auto, unfolding(crate::specs::Values::unknown))]
pub(crate) fn unknown_error(alloc: Global, item: &Meta) -> Mem<Error>
    ensures { IfOk result (λ error. error ≡ One (spec.unknown item.now)) }
{
    Ok(Error::unknown_field_path(alloc, item.path())?.with_span(item))
}

/// The word that a path is: its one identifier, where this is not raw.
pub fn word_of(path: &Path) -> &str
    ensures { result.now ≡ spec.word_of path.now }
{
    match path.get_ident() {
        Some(ident) => plain_text(ident),
        None => "",
    }
}

fn plain_text(ident: &Ident) -> &str
    ensures { result.now ≡ spec.plain_text ident.now }
{
    if ident.raw { "" } else { ident.text.as_str() }
}
