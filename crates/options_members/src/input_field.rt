//! A field of a receiver, as its options say it.

ghost use Rattle.std.specs.Prelude.{◌≡◌, ◌++◌, flat_map, OnOk, IfOk, codes};
ghost use Rattle.std.specs.Option.{option_copied};
ghost use Rattle.tok_types.specs.Ident.{ident_text};
ghost use Rattle.error_fault.specs.Outcome.{Value, settle};
ghost use Rattle.error_core.specs.Answers.{Answers};
ghost use Rattle.error_core.specs.ErrorView.{One, held};
ghost use Rattle.options_rows.specs.Does.{Does};
ghost use Rattle.options_rows.specs.Rows.{holds, one, row_stands_alone};
ghost use Rattle.options_members.specs.Body as body;
ghost use Rattle.options_members.specs.FieldOptions as spec;

use crate::container::Core;
use crate::names::FieldName;
use base_core::{Mem, Text, TryClone};
use codegen_program::PostfixTransform;
use error_core::{Accumulator, Error, Fail, Result};
use node_core::{Field, Meta};
use node_expr::Type;
use options_rows::{
    Callable, DefaultExpression, Flag, ParseAttribute, RenameTable, SpannedValue, once,
    once_transform, unknown,
};
use std::alloc::Global;
use tok_types::{Ident, Span};

/// A field of a receiver, as its options and its container say it.
pub struct InputField {
    /// `__unnamed`, where the field has none.
    pub ident: Ident,
    /// What `rename` says.
    pub attr_name: Option<Text>,
    /// The name of its items.
    pub name: Text,
    pub ty: Type,
    pub default: Option<DefaultExpression>,
    /// What converts an item.
    pub with: Option<Callable>,
    /// Whether no item is for it.
    pub skip: Option<SpannedValue<bool>>,
    pub post_transform: Option<PostfixTransform>,
    /// Whether it takes all items of its name.
    pub multiple: Option<bool>,
    /// Whether it is read from the items that no other field takes.
    pub flatten: Flag,
}

impl InputField {
    /// Reads a field of a container, whose rule and default it takes over.
    #[tactic(auto, unfolding(crate::specs::Body::field_meaning))]
    pub fn from_field(
        alloc: Global,
        field: &Field,
        parent: Option<&Core>,
        table: &RenameTable,
    ) -> Result<InputField>
        ensures { Answers (λ it. it) result (body.field_meaning table.now (option_copied parent.entry) field.now) }
    {
        let start = InputField::new(alloc, field)?;
        let read = start.parse_attributes(alloc, field.attrs.as_slice(), table)?;
        let whole = read.inherit(alloc, parent, table)?;
        Ok(whole)
    }

    /// A field that has no option.
    fn new(alloc: Global, field: &Field) -> Mem<InputField>
        ensures { IfOk result (λ it. it ≡ body.field_start field.now) }
    {
        let ident = ident_of(alloc, field)?;
        let name = ident.to_text(alloc)?;
        let ty = field.ty.try_clone(alloc)?;
        Ok(InputField {
            ident,
            attr_name: None,
            name,
            ty,
            default: None,
            with: None,
            skip: None,
            post_transform: None,
            multiple: None,
            flatten: Flag::default(),
        })
    }

    /// Takes over what the container says.
    fn inherit(
        mut self,
        alloc: Global,
        parent: Option<&Core>,
        table: &RenameTable,
    ) -> Mem<InputField>
        ensures { IfOk result (λ it. it ≡ body.inherited table.now (option_copied parent.entry) self) }
    {
        let name = self.resolved(alloc, parent, table)?;
        self.name = name;
        if let Some(core) = parent {
            self.default = default_by(self.default.take(), &core.default, &self.skip);
        }
        Ok(self)
    }

    /// The name of its items: what `rename` says, else the identifier by the container's rule.
    fn resolved(&self, alloc: Global, parent: Option<&Core>, table: &RenameTable) -> Mem<Text>
        ensures { IfOk result (λ name. name
            ≡ body.named_by table.now (option_copied parent.entry) (ident_text self.now.ident) self.now.attr_name) }
    {
        if let Some(name) = &self.attr_name {
            return name.try_clone(alloc);
        }
        let ident = self.ident.to_text(alloc)?;
        match parent {
            Some(core) => Text::from_str(alloc, table.field(core.rename_rule, ident.as_str())),
            None => Ok(ident),
        }
    }

    /// Sets the option that the item is of, and holds it against `flatten`. Where memory is wanting to tell what may not
    /// stand there, the option is taken back.
    #[tactic(auto, using(crate::proofs::UnsetLemmas::unset_set))]
    fn apply(&mut self, alloc: Global, name: FieldName, item: &Meta) -> Result<()>
        ensures { Does result (spec.field_faults name self.old item.now)
            (spec.field_options self.old (one name item.now)) self.old self.new }
    {
        self.read(alloc, name, item)?;
        let told = self.check(alloc, name, item);
        if let Err(Fail::NoMemory) = &told {
            self.unset(name);
        }
        told
    }

    /// Takes the option back.
    fn unset(&mut self, name: FieldName)
        ensures { self.new ≡ spec.unset name self.old }
    {
        match name {
            FieldName::Multiple => self.multiple = None,
            FieldName::Rename => self.attr_name = None,
            FieldName::With => self.with = None,
            FieldName::Skip => self.skip = None,
            FieldName::Map => self.post_transform = None,
            FieldName::AndThen => self.post_transform = None,
            FieldName::Default => self.default = None,
            FieldName::Flatten => self.flatten = Flag(None),
            FieldName::Unknown => {}
        }
    }

    /// Sets the option that the item is of.
    fn read(&mut self, alloc: Global, name: FieldName, item: &Meta) -> Result<()>
        ensures { Does result (spec.read_faults name self.old item.now)
            (spec.field_options self.old (one name item.now)) self.old self.new }
    {
        match name {
            FieldName::Multiple => once(alloc, &mut self.multiple, item),
            FieldName::Rename => once(alloc, &mut self.attr_name, item),
            FieldName::With => once(alloc, &mut self.with, item),
            FieldName::Skip => once(alloc, &mut self.skip, item),
            FieldName::Map => once_transform(alloc, &mut self.post_transform, item),
            FieldName::AndThen => once_transform(alloc, &mut self.post_transform, item),
            FieldName::Default => once(alloc, &mut self.default, item),
            FieldName::Flatten => once(alloc, &mut self.flatten.0, item),
            FieldName::Unknown => unknown(alloc, item),
        }
    }

    /// Tells what may not stand beside `flatten`.
    fn check(&self, alloc: Global, name: FieldName, item: &Meta) -> Result<()>
        ensures { Answers (λ done. done) result (settle (spec.clashes self.now name item.now) (Value tt)) }
    {
        let mut errors = Error::accumulator(alloc);
        match self.push_clashes(alloc, name, item, &mut errors) {
            Ok(()) => errors.finish(),
            Err(_) => {
                drop(errors.into_inner());
                Err(Fail::NoMemory)
            }
        }
    }

    fn push_clashes(
        &self,
        alloc: Global,
        name: FieldName,
        item: &Meta,
        errors: &mut Accumulator,
    ) -> Mem<()>
        ensures { OnOk result (held errors.new ≡ held errors.old ++ spec.clashes self.now name item.now) }
    {
        match name {
            FieldName::Flatten => self.push_all(alloc, &FieldName::ALL, item, errors),
            other => self.push_clash(alloc, other, item, errors),
        }
    }

    fn push_all(
        &self,
        alloc: Global,
        names: &[FieldName],
        item: &Meta,
        errors: &mut Accumulator,
    ) -> Mem<()>
        ensures { OnOk result (held errors.new ≡ held errors.old ++ flat_map (spec.clash_of self.now item.now) names.now) }
    {
        for name in names {
            self.push_clash(alloc, *name, item, errors)?;
        }
        Ok(())
    }

    fn push_clash(
        &self,
        alloc: Global,
        name: FieldName,
        item: &Meta,
        errors: &mut Accumulator,
    ) -> Mem<()>
        ensures { OnOk result (held errors.new ≡ held errors.old ++ spec.clash_of self.now item.now name) }
    {
        if self.flatten.is_present() && self.stands_alone(name) {
            let error = together(alloc, name.word(), item)?;
            return errors.push(alloc, error);
        }
        Ok(())
    }

    /// Whether no item is for it.
    pub(crate) fn is_skipped(&self) -> bool
        ensures { result ≡ holds (λ value. value.value) self.now.skip }
    {
        match &self.skip {
            Some(skip) => **skip,
            None => false,
        }
    }

    /// Whether the option is set to what may not stand beside `flatten`.
    fn stands_alone(&self, name: FieldName) -> bool
        ensures { result ≡ row_stands_alone (spec.field_row name) self.now }
    {
        match name {
            FieldName::Multiple => self.multiple.unwrap_or(false),
            FieldName::Rename => self.attr_name.is_some(),
            FieldName::With => self.with.is_some(),
            FieldName::Skip => self.is_skipped(),
            FieldName::Map => is_transform(&self.post_transform, "map"),
            FieldName::AndThen => is_transform(&self.post_transform, "and_then"),
            FieldName::Default => false,
            FieldName::Flatten => false,
            FieldName::Unknown => false,
        }
    }
}

impl Drop for InputField {
    fn drop(self) {
        let Self {
            ident: _ident,
            attr_name: _attr_name,
            name: _name,
            ty: _ty,
            default: _default,
            with: _with,
            skip: _,
            post_transform: _post_transform,
            multiple: _,
            flatten: _,
        } = self;
    }
}

impl ParseAttribute for InputField {
    ghost use Rattle.std.specs.Prelude.{refl};
    ghost use Rattle.options_members.specs.FieldLaws.{of_field-more};
    ghost use Rattle.options_members.specs.FieldOptions.{of_field, of_field_faults};

    ghost options = { λ rules. of_field };

    ghost faults = { λ rules. of_field_faults };

    fn parse_nested(&mut self, alloc: Global, item: &Meta, _table: &RenameTable) -> Result<()> {
        self.apply(alloc, FieldName::of(item.path()), item)
    }

    ghost more = { λ rules. of_field-more };

    ghost none = { λ rules set. refl };
}

/// The field's identifier, or `__unnamed`.
fn ident_of(alloc: Global, field: &Field) -> Mem<Ident>
    ensures { IfOk result (λ it. it ≡ body.field_ident field.now) }
{
    match &field.ident {
        Some(ident) => ident.try_clone(alloc),
        None => Ok(Ident {
            text: Text::from_str(alloc, "__unnamed")?,
            raw: false,
            span: Span::CallSite,
        }),
    }
}

/// The field's own default, else that of the container, else the type's where it is skipped.
fn default_by(
    own: Option<DefaultExpression>,
    parent: &Option<DefaultExpression>,
    skip: &Option<SpannedValue<bool>>,
) -> Option<DefaultExpression>
    ensures { result ≡ body.default_by own parent.now skip.now }
{
    match own {
        Some(own) => Some(own),
        None => match parent {
            Some(_) => Some(DefaultExpression::Inherit),
            None => skip_default(skip),
        },
    }
}

fn skip_default(skip: &Option<SpannedValue<bool>>) -> Option<DefaultExpression>
    ensures { result ≡ body.skip_default skip.now }
{
    match skip {
        Some(skip) => trait_where(skip),
        None => None,
    }
}

fn trait_where(skip: &SpannedValue<bool>) -> Option<DefaultExpression>
    ensures { result ≡ body.skip_default (Some skip.now) }
{
    if **skip {
        Some(DefaultExpression::Trait { span: skip.span() })
    } else {
        None
    }
}

fn is_transform(set: &Option<PostfixTransform>, word: &str) -> bool
    ensures { result ≡ holds (spec.is_by word.now) set.now }
{
    match set {
        Some(set) => set.transformer.text.is(word),
        None => false,
    }
}

#[tactic(auto, unfolding(crate::specs::FieldOptions::together))]
fn together(alloc: Global, word: &str, item: &Meta) -> Mem<Error>
    ensures { IfOk result (λ error. error ≡ One (spec.together word.now item.now)) }
{
    let text = together_text(alloc, word)?;
    Ok(Error::custom(alloc, text.as_str())?.with_span(item))
}

fn together_text(alloc: Global, word: &str) -> Mem<Text>
    ensures { IfOk result (λ text. text ≡ codes "`flatten` and `" ++ word.now ++ codes "` cannot be used together") }
{
    let mut text = Text::from_str(alloc, "`flatten` and `")?;
    text.push_str(word)?;
    text.push_str("` cannot be used together")?;
    Ok(text)
}
