//! A variant of a receiver, as its options say it.

ghost use Rattle.std.specs.Prelude.{◌≡◌, IfOk};
ghost use Rattle.std.specs.Option.{option_copied};
ghost use Rattle.tok_types.specs.Ident.{ident_text};
ghost use Rattle.node_core.specs.Bodies.{field_list};
ghost use Rattle.error_fault.specs.Outcome.{bind};
ghost use Rattle.error_core.specs.Answers.{Answers};
ghost use Rattle.error_core.specs.Each.{each};
ghost use Rattle.error_core.specs.ErrorView.{One};
ghost use Rattle.options_rows.specs.Does.{Does};
ghost use Rattle.options_rows.specs.Entries.{option_entries};
ghost use Rattle.options_rows.specs.Rows.{one};
ghost use Rattle.options_rows.specs.Walk.{read_options};
ghost use Rattle.options_members.specs.Body as body;
ghost use Rattle.options_members.specs.VariantOptions as spec;

use crate::container::Core;
use crate::input_field::InputField;
use crate::names::VariantName;
use base_core::{Items, Mem, Text, TryClone};
use body_core::ast::Fields;
use error_core::{Error, Fail, Result};
use node_core::{Field, Meta, Style, Variant};
use options_rows::{Flag, ParseAttribute, RenameTable, SpannedValue, once, unknown};
use std::alloc::Global;
use tok_types::Ident;

/// A variant of a receiver, as its options and its container say it.
pub struct InputVariant {
    pub ident: Ident,
    /// What `rename` says.
    pub attr_name: Option<Text>,
    /// The name of its items.
    pub name: Text,
    pub body: Fields<InputField>,
    pub skip: Option<bool>,
    /// Whether the container's word stands for it.
    pub word: Option<SpannedValue<bool>>,
    /// What the container says.
    pub allow_unknown_fields: Option<bool>,
    /// Whether it is read as its one field is.
    pub transparent: Flag,
}

impl InputVariant {
    /// Reads a variant of a container, whose rule it takes over, as its fields do, and these its default too.
    ///
    /// Fails with all that is wrong with its options, else with what is wrong with its first faulty field.
    #[tactic(auto, unfolding(crate::specs::Body::variant_meaning))]
    pub fn from_variant(
        alloc: Global,
        variant: &Variant,
        parent: Option<&Core>,
        table: &RenameTable,
    ) -> Result<InputVariant>
        ensures { Answers (λ it. it) result (body.variant_meaning table.now (option_copied parent.entry) variant.now) }
    {
        let start = InputVariant::new(alloc, variant)?;
        start.read_from(alloc, variant, parent, table)
    }

    /// A variant that has no option, and of which no field is read yet.
    fn new(alloc: Global, variant: &Variant) -> Mem<InputVariant>
        ensures { IfOk result (λ it. it ≡ body.variant_start variant.now) }
    {
        let ident = variant.ident.try_clone(alloc)?;
        let name = variant.ident.to_text(alloc)?;
        Ok(InputVariant {
            ident,
            attr_name: None,
            name,
            body: Fields::empty_from(alloc, &variant.fields),
            skip: None,
            word: None,
            allow_unknown_fields: None,
            transparent: Flag::default(),
        })
    }

    /// Its options, and then its fields.
    fn read_from(
        self,
        alloc: Global,
        variant: &Variant,
        parent: Option<&Core>,
        table: &RenameTable,
    ) -> Result<InputVariant>
        ensures { Answers (λ it. it) result
            (bind (read_options spec.of_variant spec.of_variant_faults self (option_entries variant.now.attrs))
            (body.variant_members table.now (option_copied parent.entry) (field_list variant.now.fields))) }
    {
        let read = self.parse_attributes(alloc, variant.attrs.as_slice(), table)?;
        read.take_members(alloc, variant.fields.as_slice(), parent, table)
    }

    /// Takes over what the container says, and reads the fields.
    fn take_members(
        self,
        alloc: Global,
        fields: &[Field],
        parent: Option<&Core>,
        table: &RenameTable,
    ) -> Result<InputVariant>
        ensures { Answers (λ it. it) result (body.variant_members table.now (option_copied parent.entry) fields.now self) }
    {
        let mut whole = self.inherit(alloc, parent, table)?;
        whole.body.fields = read_fields(alloc, fields, parent, table)?;
        Ok(whole)
    }

    /// Takes over what the container says.
    fn inherit(
        mut self,
        alloc: Global,
        parent: Option<&Core>,
        table: &RenameTable,
    ) -> Mem<InputVariant>
        ensures { IfOk result (λ it. it ≡ body.variant_inherited table.now (option_copied parent.entry) self) }
    {
        let name = self.resolved(alloc, parent, table)?;
        self.name = name;
        self.allow_unknown_fields = allowed_by(parent);
        Ok(self)
    }

    /// The name of its items: what `rename` says, else the identifier by the container's rule.
    fn resolved(&self, alloc: Global, parent: Option<&Core>, table: &RenameTable) -> Mem<Text>
        ensures { IfOk result (λ name. name
            ≡ body.variant_named_by table.now (option_copied parent.entry) (ident_text self.now.ident) self.now.attr_name) }
    {
        if let Some(name) = &self.attr_name {
            return name.try_clone(alloc);
        }
        let ident = self.ident.to_text(alloc)?;
        match parent {
            Some(core) => Text::from_str(alloc, table.variant(core.rename_rule, ident.as_str())),
            None => Ok(ident),
        }
    }

    /// Sets the option that the item is of, or for want of memory none.
    fn apply(&mut self, alloc: Global, name: VariantName, item: &Meta) -> Result<()>
        ensures { Does result (spec.variant_faults name self.old item.now)
            (spec.variant_options self.old (one name item.now)) self.old self.new }
    {
        match name {
            VariantName::Rename => once(alloc, &mut self.attr_name, item),
            VariantName::Skip => once(alloc, &mut self.skip, item),
            VariantName::Transparent => once(alloc, &mut self.transparent.0, item),
            VariantName::Word => self.apply_word(alloc, item),
            VariantName::Unknown => unknown(alloc, item),
        }
    }

    /// A word stands for a variant without members alone.
    fn apply_word(&mut self, alloc: Global, item: &Meta) -> Result<()>
        ensures { Does result (spec.variant_faults VariantName.Word self.old item.now)
            (spec.variant_options self.old (one VariantName.Word item.now)) self.old self.new }
    {
        match self.body.style {
            Style::Unit => once(alloc, &mut self.word, item),
            Style::Tuple => Err(Fail::Faults(not_unit(alloc, item)?)),
            Style::Struct => Err(Fail::Faults(not_unit(alloc, item)?)),
        }
    }

    /// Whether it has no members.
    pub fn is_unit_variant(&self) -> bool
        ensures { result ≡ body.is_unit self.now.body.style }
    {
        match self.body.style {
            Style::Unit => true,
            Style::Tuple => false,
            Style::Struct => false,
        }
    }

    /// Whether no item is for it.
    pub fn is_skipped(&self) -> bool
        ensures { result ≡ body.is_skipped_variant self.now }
    {
        self.skip.unwrap_or(false)
    }
}

impl Drop for InputVariant {
    fn drop(self) {
        let Self {
            ident: _ident,
            attr_name: _attr_name,
            name: _name,
            body: _body,
            skip: _,
            word: _,
            allow_unknown_fields: _,
            transparent: _,
        } = self;
    }
}

impl ParseAttribute for InputVariant {
    ghost use Rattle.std.specs.Prelude.{refl};
    ghost use Rattle.options_members.specs.VariantLaws.{of_variant-more};
    ghost use Rattle.options_members.specs.VariantOptions.{of_variant, of_variant_faults};

    ghost options = { λ rules. of_variant };

    ghost faults = { λ rules. of_variant_faults };

    fn parse_nested(&mut self, alloc: Global, item: &Meta, _table: &RenameTable) -> Result<()> {
        self.apply(alloc, VariantName::of(item.path()), item)
    }

    ghost more = { λ rules. of_variant-more };

    ghost none = { λ rules set. refl };
}

/// The fields one by one, up to the first that has a fault.
fn read_fields(
    alloc: Global,
    fields: &[Field],
    parent: Option<&Core>,
    table: &RenameTable,
) -> Result<Items<InputField>>
    ensures { Answers (λ it. it) result (each (body.field_meaning table.now (option_copied parent.entry)) fields.now) }
{
    let mut read = Items::new(alloc);
    for field in fields {
        let field = InputField::from_field(alloc, field, parent, table)?;
        read.push(field)?;
    }
    Ok(read)
}

/// What the container says of items that are for no field.
fn allowed_by(parent: Option<&Core>) -> Option<bool>
    ensures { result ≡ body.parent_allows (option_copied parent.entry) }
{
    match parent {
        Some(core) => core.allow_unknown_fields,
        None => None,
    }
}

#[tactic(auto, unfolding(crate::specs::VariantOptions::not_unit))]
fn not_unit(alloc: Global, item: &Meta) -> Mem<Error>
    ensures { IfOk result (λ error. error ≡ One (spec.not_unit item.now)) }
{
    let text = "Unexpected field: `word`. `#[darling(word)]` can only be applied to a unit variant";
    Ok(Error::custom(alloc, text)?.with_span(item))
}
