//! What the options of a declaration say, whatever it derives.

ghost use Rattle.std.specs.Prelude.{◌≡◌, ◌++◌, ◌∷◌, [], length, map, IfOk, OnOk, OnErr};
ghost use Rattle.error_fault.specs.Outcome.{Value, settle};
ghost use Rattle.error_core.specs.Answers.{Answers};
ghost use Rattle.error_core.specs.ErrorView.{One, held};
ghost use Rattle.options_rows.specs.Does.{Does};
ghost use Rattle.node_core.specs.Bodies.{is_union};
ghost use Rattle.options_rows.specs.Rows.{one};
ghost use Rattle.options_members.specs.Body as spec;
ghost use Rattle.options_members.specs.CoreOptions.{core_faults, core_options};

use crate::checks::{Checks, validate};
use crate::input_field::InputField;
use crate::input_variant::InputVariant;
use crate::names::CoreName;
use base_core::{Items, Mem, TryClone};
use body_core::ast::{Data, Fields};
use codegen_program::PostfixTransform;
use error_core::{Accumulator, Error, Result};
use node_core::{DeriveInput, Field, Generics, Meta, Style, Variant, WherePredicate};
use node_expr::Path;
use options_rows::{
    DefaultExpression, Flag, ParseAttribute, ParseData, RenameRule, RenameTable, last_given,
    last_rule, once, once_transform, unknown,
};
use std::alloc::Global;
use tok_types::{Ident, Span};

/// What the options of a declaration say, whatever it derives.
pub struct Core {
    pub ident: Ident,
    pub generics: Generics,
    /// Where the value of a member comes from that no item gives.
    pub default: Option<DefaultExpression>,
    /// The rule by which fields and variants are named.
    pub rename_rule: RenameRule,
    /// The path to `darling`.
    pub krate: Option<Path>,
    pub post_transform: Option<PostfixTransform>,
    pub body: Data<InputVariant, InputField>,
    /// The bounds of the generated impl.
    pub bound: Option<Items<WherePredicate>>,
    /// Whether items that are for no field are let pass.
    pub allow_unknown_fields: Option<bool>,
    /// Whether it is read as its one field is.
    pub transparent: Flag,
}

impl Core {
    /// A container that has no option and no member yet. A union is refused.
    pub fn start(alloc: Global, di: &DeriveInput, table: &RenameTable) -> Result<Core>
        ensures { Answers (λ it. it) result
            (settle (spec.union_faults (is_union di.now.body)) (Value (spec.core_start table.now di.now))) }
    {
        let body = Data::try_empty_from(alloc, &di.body)?;
        let ident = di.ident.try_clone(alloc)?;
        let generics = di.generics.try_clone(alloc)?;
        Ok(Core {
            ident,
            generics,
            default: None,
            rename_rule: start_rule(&di.body, table),
            krate: None,
            post_transform: None,
            body,
            bound: None,
            allow_unknown_fields: None,
            transparent: Flag::default(),
        })
    }

    /// Sets the option that the item is of, or for want of memory none.
    pub fn apply(
        &mut self,
        alloc: Global,
        name: CoreName,
        item: &Meta,
        table: &RenameTable,
    ) -> Result<()>
        ensures { Does result (core_faults table.now name self.old item.now)
            (core_options table.now self.old (one name item.now)) self.old self.new }
    {
        match name {
            CoreName::Default => once(alloc, &mut self.default, item),
            CoreName::RenameAll => last_rule(alloc, &mut self.rename_rule, item, table),
            CoreName::Map => once_transform(alloc, &mut self.post_transform, item),
            CoreName::AndThen => once_transform(alloc, &mut self.post_transform, item),
            CoreName::Bound => last_given(alloc, &mut self.bound, item),
            CoreName::AllowUnknownFields => once(alloc, &mut self.allow_unknown_fields, item),
            CoreName::Transparent => once(alloc, &mut self.transparent.0, item),
            CoreName::Crate => once(alloc, &mut self.krate, item),
            CoreName::Unknown => unknown(alloc, item),
        }
    }

    /// Whether a struct of these fields is read as its one field is: a tuple of one, or one with names that says so.
    pub fn is_delegated(&self, fields: &Fields<InputField>) -> bool
        ensures { result ≡ spec.is_delegated fields.now.style (length fields.now.fields) self.now.transparent.0 }
    {
        match fields.style {
            Style::Tuple => fields.len() == 1,
            Style::Struct => self.transparent.is_present(),
            Style::Unit => false,
        }
    }

    /// Puts a field behind the others. The body of an enum keeps none.
    fn push_field(&mut self, field: InputField) -> Mem<()>
        ensures ok { OnOk result (self.new ≡ spec.core_with self.old (field ∷ [])) }
        ensures err { OnErr result (self.new ≡ self.old) }
    {
        match &mut self.body {
            Data::Struct(it) => it.fields.push(field),
            Data::Enum(_) => Ok(()),
        }
    }

    /// Puts a variant behind the others. The body of a struct keeps none.
    fn push_variant(&mut self, variant: InputVariant) -> Mem<()>
        ensures ok { OnOk result (self.new ≡ spec.core_with_variants self.old (variant ∷ [])) }
        ensures err { OnErr result (self.new ≡ self.old) }
    {
        match &mut self.body {
            Data::Enum(variants) => variants.push(variant),
            Data::Struct(_) => Ok(()),
        }
    }
}

impl Checks for Core {
    ghost use Rattle.options_members.specs.Body.{core_checks};

    ghost wrong = { core_checks };

    fn push_checks(&self, alloc: Global, errors: &mut Accumulator) -> Mem<()> {
        let Data::Struct(it) = &self.body else {
            return Ok(());
        };
        check_transparent(alloc, &self.transparent, it.fields.len(), errors)?;
        let spans = flat_spans(alloc, it.fields.as_slice())?;
        check_flatten(alloc, spans.as_slice(), errors)
    }
}

impl Drop for Core {
    fn drop(self) {
        let Self {
            ident: _ident,
            generics: _generics,
            default: _default,
            rename_rule: _,
            krate: _krate,
            post_transform: _post_transform,
            body: _body,
            bound: _bound,
            allow_unknown_fields: _,
            transparent: _,
        } = self;
    }
}

impl ParseAttribute for Core {
    ghost use Rattle.std.specs.Prelude.{refl};
    ghost use Rattle.options_members.specs.CoreLaws.{of_core-more};
    ghost use Rattle.options_members.specs.CoreOptions.{of_core, of_core_faults};

    ghost options = { of_core };

    ghost faults = { of_core_faults };

    fn parse_nested(&mut self, alloc: Global, item: &Meta, table: &RenameTable) -> Result<()> {
        self.apply(alloc, CoreName::of(item.path()), item, table)
    }

    ghost more = { of_core-more };

    ghost none = { λ rules set. refl };
}

impl ParseData for Core {
    ghost use Rattle.std.specs.Prelude.{Some};
    ghost use Rattle.options_members.specs.Body.{core_checks, core_takes, core_takes_variant};

    ghost of_field = { λ rules set field. Some (core_takes rules set field) };

    ghost of_variant = { λ rules set variant. Some (core_takes_variant rules set variant) };

    ghost checks = { core_checks };

    fn own_field(
        &mut self,
        alloc: Global,
        field: &Field,
        table: &RenameTable,
    ) -> Result<Option<()>> {
        let read = InputField::from_field(alloc, field, Some(&*self), table)?;
        self.push_field(read)?;
        Ok(Some(()))
    }

    fn own_variant(
        &mut self,
        alloc: Global,
        variant: &Variant,
        table: &RenameTable,
    ) -> Result<Option<()>> {
        let read = InputVariant::from_variant(alloc, variant, Some(&*self), table)?;
        self.push_variant(read)?;
        Ok(Some(()))
    }

    fn validate_body(&self, alloc: Global, errors: &mut Accumulator) -> Mem<()> {
        validate(self, alloc, errors)
    }
}

/// Variants are named by the rule `snake_case`, fields keep their names.
fn start_rule(body: &node_core::Data, table: &RenameTable) -> RenameRule
    ensures { result ≡ spec.start_rule table.now body.now }
{
    match body {
        node_core::Data::Enum(_) => table.named("snake_case"),
        node_core::Data::Struct(_) => RenameRule::Keep,
        node_core::Data::Union(_) => RenameRule::Keep,
    }
}

/// `transparent` is for structs of one field.
fn check_transparent(
    alloc: Global,
    transparent: &Flag,
    count: usize,
    errors: &mut Accumulator,
) -> Mem<()>
    ensures { OnOk result (held errors.new ≡ held errors.old ++ spec.transparent_faults transparent.now.0 count) }
{
    let Some(span) = transparent.0 else {
        return Ok(());
    };
    if count == 1 {
        return Ok(());
    }
    let error = not_single(alloc, span)?;
    errors.push(alloc, error)
}

#[tactic(auto, unfolding(crate::specs::Body::not_single))]
fn not_single(alloc: Global, span: Span) -> Mem<Error>
    ensures { IfOk result (λ error. error ≡ One (spec.not_single span)) }
{
    let text = "`#[darling(transparent)]` can only be applied to structs with a single field";
    Ok(Error::custom(alloc, text)?.with_span_at(span))
}

/// Where `flatten` stands.
fn flat_spans(alloc: Global, fields: &[InputField]) -> Mem<Items<Span>>
    ensures { IfOk result (λ spans. spans ≡ spec.flat_spans fields.now) }
{
    let mut spans = Items::new(alloc);
    for field in fields {
        if let Some(span) = field.flatten.0 {
            spans.push(span)?;
        }
    }
    Ok(spans)
}

/// `flatten` is for one field.
fn check_flatten(alloc: Global, spans: &[Span], errors: &mut Accumulator) -> Mem<()>
    ensures { OnOk result (held errors.new ≡ held errors.old ++ spec.flatten_faults spans.now) }
{
    if 1 < spans.len() {
        return push_not_alone(alloc, spans, errors);
    }
    Ok(())
}

fn push_not_alone(alloc: Global, spans: &[Span], errors: &mut Accumulator) -> Mem<()>
    ensures { OnOk result (held errors.new ≡ held errors.old ++ map spec.not_alone spans.now) }
{
    for span in spans {
        let error = not_alone(alloc, *span)?;
        errors.push(alloc, error)?;
    }
    Ok(())
}

#[tactic(auto, unfolding(crate::specs::Body::not_alone))]
fn not_alone(alloc: Global, span: Span) -> Mem<Error>
    ensures { IfOk result (λ error. error ≡ One (spec.not_alone span)) }
{
    let text = "`#[darling(flatten)]` can only be applied to one field";
    Ok(Error::custom(alloc, text)?.with_span_at(span))
}
