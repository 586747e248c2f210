//! What the options of a receiver say that is read from an item or from a part of one.

ghost use Rattle.std.specs.Prelude.{◌≡◌, ◌++◌, Some, map, codes, IfOk, OnOk};
ghost use Rattle.error_fault.specs.Outcome.{Value, settle};
ghost use Rattle.error_core.specs.Answers.{Answers};
ghost use Rattle.error_core.specs.ErrorView.{One, held};
ghost use Rattle.options_rows.specs.PathLists.{common};
ghost use Rattle.options_rows.specs.Does.{Does, TakesOwn};
ghost use Rattle.node_core.specs.Bodies.{is_union};
ghost use Rattle.options_rows.specs.Rows.{one};
ghost use Rattle.options_core.specs.Receivers as spec;
ghost use Rattle.options_core.specs.ContainerOptions.{outer_faults, outer_options};
ghost use Rattle.options_core.specs.Parts.{part_said};
ghost use Rattle.options_members.specs.Body.{union_faults};

use crate::names::OuterName;
use base_core::{Mem, Text, TryClone};
use body_core::ast::Data;
use codegen_program::Magic;
use error_core::{Accumulator, Error, Result};
use node_core::{DeriveInput, Field, Meta};
use node_expr::Path;
use node_span::Spanned;
use options_members::{Checks, Core, InputField, InputVariant};
use options_rows::{
    DefaultExpression, ForwardAttrsFilter, ForwardedField, ParseAttribute, ParseData, PathList,
    RenameTable, forwarded_field, last, last_given,
};
use print_core::ToTokens;
use std::alloc::Global;
use tok_core::to_text;
use tok_types::Ident;

/// What the options of a receiver say that is read from an item or from a part of one.
pub struct OuterFrom {
    pub container: Core,
    /// The attributes that are read.
    pub attr_names: PathList,
    /// The attributes that are handed on; of none while the option is absent.
    pub forward_attrs: Option<ForwardAttrsFilter>,
    /// Whether the receiver's default is made from the element's identifier.
    pub from_ident: bool,
    /// The field `attrs`, which takes the attributes that are handed on.
    pub attrs: Option<ForwardedField>,
    /// The field `ident`, which takes the element's identifier.
    pub ident: Option<ForwardedField>,
}

impl OuterFrom {
    /// A receiver that has no option and no member yet. A union is refused.
    pub fn start(alloc: Global, di: &DeriveInput, table: &RenameTable) -> Result<OuterFrom>
        ensures { Answers (λ it. it) result
            (settle (union_faults (is_union di.now.body)) (Value (spec.outer_start table.now di.now))) }
    {
        Ok(OuterFrom {
            container: Core::start(alloc, di, table)?,
            attr_names: PathList::new(Vec::new(alloc)),
            forward_attrs: None,
            from_ident: false,
            attrs: None,
            ident: None,
        })
    }

    /// Sets the option that the item is of, or for want of memory none.
    pub(crate) fn apply(
        &mut self,
        alloc: Global,
        name: OuterName,
        item: &Meta,
        table: &RenameTable,
    ) -> Result<()>
        ensures { Does result (outer_faults table.now name self.old item.now)
            (outer_options table.now self.old (one name item.now)) self.old self.new }
    {
        match name {
            OuterName::Attributes => last(alloc, &mut self.attr_names, item),
            OuterName::ForwardAttrs => last_given(alloc, &mut self.forward_attrs, item),
            OuterName::FromIdent => {
                let span = item.path().spanned();
                self.container.default = Some(DefaultExpression::Trait { span });
                self.from_ident = true;
                Ok(())
            }
            OuterName::Core(name) => self.container.apply(alloc, name, item, table),
        }
    }

    /// Takes a field by the part of the element that it takes, or as one that is read from items.
    ///
    /// Faults and want of memory change nothing.
    pub(crate) fn take_field(
        &mut self,
        alloc: Global,
        part: Option<Magic>,
        field: &Field,
        table: &RenameTable,
    ) -> Result<Option<()>>
        ensures { TakesOwn result (Some (spec.outer_takes table.now part self.old field.now)) self.old self.new }
    {
        match part {
            Some(Magic::Ident) => take_part(alloc, &mut self.ident, field, table),
            Some(Magic::Attrs) => take_part(alloc, &mut self.attrs, field, table),
            _ => self.container.own_field(alloc, field, table),
        }
    }
}

/// Takes the place of the field that took the part until now.
pub(crate) fn take_part(
    alloc: Global,
    slot: &mut Option<ForwardedField>,
    field: &Field,
    table: &RenameTable,
) -> Result<Option<()>>
    ensures { TakesOwn result (Some (part_said field.now)) slot.old slot.new }
{
    let part = forwarded_field(alloc, field, table)?;
    *slot = Some(part);
    Ok(Some(()))
}

/// The same of a part whose field has no options.
pub(crate) fn take_name(
    alloc: Global,
    slot: &mut Option<Ident>,
    field: &Field,
) -> Result<Option<()>>
    ensures { TakesOwn result (Some (Value field.now.ident)) slot.old slot.new }
{
    *slot = field.ident.try_clone(alloc)?;
    Ok(Some(()))
}

impl Checks for OuterFrom {
    ghost use Rattle.options_core.specs.Receivers.{outer_checks};

    ghost wrong = { outer_checks };

    fn push_checks(&self, alloc: Global, errors: &mut Accumulator) -> Mem<()> {
        self.container.push_checks(alloc, errors)?;
        let kind = body_kind(&self.container.body);
        check_attrs(alloc, kind, &self.attrs, &self.forward_attrs, errors)?;
        check_forwarded(alloc, &self.forward_attrs, &self.attr_names, errors)
    }
}

impl Drop for OuterFrom {
    fn drop(self) {
        let Self {
            container: _container,
            attr_names: _attr_names,
            forward_attrs: _forward_attrs,
            from_ident: _,
            attrs: _attrs,
            ident: _ident,
        } = self;
    }
}

impl ParseAttribute for OuterFrom {
    ghost use Rattle.std.specs.Prelude.{refl};
    ghost use Rattle.options_core.specs.ContainerLaws.{of_outer-more};
    ghost use Rattle.options_core.specs.ContainerOptions.{of_outer, of_outer_faults};

    ghost options = { of_outer };

    ghost faults = { of_outer_faults };

    fn parse_nested(&mut self, alloc: Global, item: &Meta, table: &RenameTable) -> Result<()> {
        self.apply(alloc, OuterName::of(item.path()), item, table)
    }

    ghost more = { of_outer-more };

    ghost none = { λ rules set. refl };
}

/// What the body is, in faults.
fn body_kind(body: &Data<InputVariant, InputField>) -> &'static str
    ensures { result.now ≡ spec.body_kind body.now }
{
    match body {
        Data::Enum(_) => "enum",
        Data::Struct(_) => "struct",
    }
}

/// A field takes attributes where some are handed on.
fn check_attrs(
    alloc: Global,
    kind: &str,
    attrs: &Option<ForwardedField>,
    filter: &Option<ForwardAttrsFilter>,
    errors: &mut Accumulator,
) -> Mem<()>
    ensures { OnOk result (held errors.new ≡ held errors.old ++ spec.attrs_faults kind.now attrs.now filter.now) }
{
    let Some(attrs) = attrs else {
        return Ok(());
    };
    if filter.is_some() {
        return Ok(());
    }
    let error = not_populated(alloc, kind, &attrs.ident)?;
    errors.push(alloc, error)
}

#[tactic(auto, unfolding(crate::specs::Receivers::not_populated))]
fn not_populated(alloc: Global, kind: &str, ident: &Ident) -> Mem<Error>
    ensures { IfOk result (λ error. error ≡ One (spec.not_populated kind.now ident.now)) }
{
    let text = not_populated_text(alloc, kind)?;
    Ok(Error::custom(alloc, text.as_str())?.with_span(ident))
}

fn not_populated_text(alloc: Global, kind: &str) -> Mem<Text>
    ensures { IfOk result (λ text. text
        ≡ codes "field will not be populated because `forward_attrs` is not set on the " ++ kind.now) }
{
    let mut text = Text::from_str(
        alloc,
        "field will not be populated because `forward_attrs` is not set on the ",
    )?;
    text.push_str(kind)?;
    Ok(text)
}

/// What is read is not handed on.
fn check_forwarded(
    alloc: Global,
    filter: &Option<ForwardAttrsFilter>,
    names: &PathList,
    errors: &mut Accumulator,
) -> Mem<()>
    ensures { OnOk result (held errors.new ≡ held errors.old ++ spec.forward_faults filter.now names.now.0) }
{
    match filter {
        Some(ForwardAttrsFilter::Only(paths)) => push_not_forwarded(alloc, paths, names, errors),
        Some(ForwardAttrsFilter::All) => Ok(()),
        None => Ok(()),
    }
}

fn push_not_forwarded(
    alloc: Global,
    paths: &PathList,
    names: &PathList,
    errors: &mut Accumulator,
) -> Mem<()>
    ensures { OnOk result (held errors.new
        ≡ held errors.old ++ map spec.not_forwarded (common paths.now.0 names.now.0)) }
{
    for path in paths.intersection(names) {
        let error = not_forwarded(alloc, path)?;
        errors.push(alloc, error)?;
    }
    Ok(())
}

#[tactic(auto, unfolding(crate::specs::Receivers::not_forwarded))]
fn not_forwarded(alloc: Global, path: &Path) -> Mem<Error>
    ensures { IfOk result (λ error. error ≡ One (spec.not_forwarded path.now)) }
{
    let text = not_forwarded_text(alloc, path)?;
    Ok(Error::custom(alloc, text.as_str())?.with_span(path))
}

fn not_forwarded_text(alloc: Global, path: &Path) -> Mem<Text>
    ensures { IfOk result (λ text. text
        ≡ codes "attribute path `" ++ spec.written path.now ++ codes "` will not be forwarded because it is also listed in `attributes`") }
{
    let mut text = Text::from_str(alloc, "attribute path `")?;
    text.push_str(written(alloc, path)?.as_str())?;
    text.push_str("` will not be forwarded because it is also listed in `attributes`")?;
    Ok(text)
}

/// The text of the path's tokens.
fn written(alloc: Global, path: &Path) -> Mem<Text>
    ensures { IfOk result (λ text. text ≡ spec.written path.now) }
{
    let tokens = path.to_token_stream(alloc)?;
    to_text(alloc, &tokens)
}
