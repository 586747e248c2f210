//! The options of a receiver that derives `FromMeta`.

ghost use Rattle.std.specs.Prelude.{◌≡◌, ◌++◌, codes, IfOk, OnOk};
ghost use Rattle.error_fault.specs.Outcome.{Value, settle};
ghost use Rattle.error_core.specs.Answers.{Answers};
ghost use Rattle.error_core.specs.ErrorView.{One, held};
ghost use Rattle.options_rows.specs.Does.{Does};
ghost use Rattle.node_core.specs.Bodies.{is_union};
ghost use Rattle.options_rows.specs.Rows.{one};
ghost use Rattle.options_members.specs.Body as body;
ghost use Rattle.options_meta.specs.MetaChecks as checks;
ghost use Rattle.options_meta.specs.MetaOptions.{meta_faults, meta_options};
ghost use Rattle.options_meta.specs.Stages as spec;

use crate::enum_checks::check_enum;
use crate::names::MetaName;
use base_core::{Mem, Text};
use body_core::ast::{Data, Fields};
use error_core::{Accumulator, Error, Result};
use node_core::{DeriveInput, Field, Meta, Style, Variant};
use options_members::{Checks, Core, InputField, validate};
use options_rows::{Callable, ParseAttribute, ParseData, RenameTable, once_at_path};
use std::alloc::Global;

/// The options of a receiver that derives `FromMeta`.
pub struct FromMetaOptions {
    pub base: Core,
    /// What a word alone is read by.
    pub from_word: Option<Callable>,
    /// What it is where no item is.
    pub from_none: Option<Callable>,
    /// What a value is read by.
    pub from_expr: Option<Callable>,
    /// Whether the type is read by `syn` too.
    pub derive_syn_parse: Option<bool>,
}

impl FromMetaOptions {
    /// The options of a declaration, or all that is wrong with them.
    pub fn new(alloc: Global, di: &DeriveInput, table: &RenameTable) -> Result<FromMetaOptions>
        ensures { Answers (λ it. it) result (spec.new_outcome (spec.meta_reader table.now di.now) di.now) }
    {
        FromMetaOptions::read(alloc, di, table)
    }

    /// One stage behind another.
    fn read(alloc: Global, di: &DeriveInput, table: &RenameTable) -> Result<FromMetaOptions>
        ensures { Answers (λ it. it) result (spec.meta_staged table.now di.now) }
    {
        let start = FromMetaOptions::start(alloc, di, table)?;
        let read = start.parse_attributes(alloc, di.attrs.as_slice(), table)?;
        read.parse_body(alloc, &di.body, table)
    }

    /// No option and no member yet. A union is refused.
    fn start(alloc: Global, di: &DeriveInput, table: &RenameTable) -> Result<FromMetaOptions>
        ensures { Answers (λ it. it) result
            (settle (body.union_faults (is_union di.now.body)) (Value (checks.meta_start table.now di.now))) }
    {
        Ok(FromMetaOptions {
            base: Core::start(alloc, di, table)?,
            from_word: None,
            from_none: None,
            from_expr: None,
            derive_syn_parse: None,
        })
    }

    /// Sets the option that the item is of, or for want of memory none.
    fn apply(
        &mut self,
        alloc: Global,
        name: MetaName,
        item: &Meta,
        table: &RenameTable,
    ) -> Result<()>
        ensures { Does result (meta_faults table.now name self.old item.now)
            (meta_options table.now self.old (one name item.now)) self.old self.new }
    {
        match name {
            MetaName::FromWord => once_at_path(alloc, &mut self.from_word, item),
            MetaName::FromNone => once_at_path(alloc, &mut self.from_none, item),
            MetaName::FromExpr => once_at_path(alloc, &mut self.from_expr, item),
            MetaName::DeriveSynParse => once_at_path(alloc, &mut self.derive_syn_parse, item),
            MetaName::Core(name) => self.base.apply(alloc, name, item, table),
        }
    }

    /// What is called is of use.
    fn check_calls(&self, alloc: Global, errors: &mut Accumulator) -> Mem<()>
        ensures { OnOk result (held errors.new ≡ held errors.old ++ checks.call_faults self.now self.now.base.body) }
    {
        match &self.base.body {
            Data::Struct(it) => self.check_struct(alloc, it, errors),
            Data::Enum(variants) => check_enum(alloc, self, variants.as_slice(), errors),
        }
    }

    fn check_struct(
        &self,
        alloc: Global,
        fields: &Fields<InputField>,
        errors: &mut Accumulator,
    ) -> Mem<()>
        ensures { OnOk result (held errors.new ≡ held errors.old ++ checks.struct_faults self.now fields.now) }
    {
        let delegated = self.base.is_delegated(fields);
        check_word(
            alloc,
            is_unit(fields.style),
            delegated,
            &self.from_word,
            errors,
        )?;
        check_expr(alloc, delegated, &self.from_expr, errors)
    }
}

impl Checks for FromMetaOptions {
    ghost use Rattle.options_meta.specs.MetaChecks.{meta_checks};

    ghost wrong = { meta_checks };

    fn push_checks(&self, alloc: Global, errors: &mut Accumulator) -> Mem<()> {
        self.base.push_checks(alloc, errors)?;
        self.check_calls(alloc, errors)
    }
}

impl Drop for FromMetaOptions {
    fn drop(self) {
        let Self {
            base: _base,
            from_word: _from_word,
            from_none: _from_none,
            from_expr: _from_expr,
            derive_syn_parse: _,
        } = self;
    }
}

impl ParseAttribute for FromMetaOptions {
    ghost use Rattle.std.specs.Prelude.{refl};
    ghost use Rattle.options_meta.specs.MetaLaws.{of_meta-more};
    ghost use Rattle.options_meta.specs.MetaOptions.{of_meta, of_meta_faults};

    ghost options = { of_meta };

    ghost faults = { of_meta_faults };

    fn parse_nested(&mut self, alloc: Global, item: &Meta, table: &RenameTable) -> Result<()> {
        self.apply(alloc, MetaName::of(item.path()), item, table)
    }

    ghost more = { of_meta-more };

    ghost none = { λ rules set. refl };
}

impl ParseData for FromMetaOptions {
    ghost use Rattle.options_meta.specs.MetaChecks.{meta_checks};
    ghost use Rattle.options_meta.specs.Stages.{meta_own, meta_own_variant};

    ghost of_field = { meta_own };

    ghost of_variant = { meta_own_variant };

    ghost checks = { meta_checks };

    fn own_field(
        &mut self,
        alloc: Global,
        field: &Field,
        table: &RenameTable,
    ) -> Result<Option<()>> {
        self.base.own_field(alloc, field, table)
    }

    fn own_variant(
        &mut self,
        alloc: Global,
        variant: &Variant,
        table: &RenameTable,
    ) -> Result<Option<()>> {
        self.base.own_variant(alloc, variant, table)
    }

    fn validate_body(&self, alloc: Global, errors: &mut Accumulator) -> Mem<()> {
        validate(self, alloc, errors)
    }
}

fn is_unit(style: Style) -> bool
    ensures { result ≡ body.is_unit style }
{
    match style {
        Style::Unit => true,
        Style::Tuple => false,
        Style::Struct => false,
    }
}

fn check_word(
    alloc: Global,
    unit: bool,
    delegated: bool,
    from_word: &Option<Callable>,
    errors: &mut Accumulator,
) -> Mem<()>
    ensures { OnOk result (held errors.new ≡ held errors.old ++ checks.word_faults unit delegated from_word.now) }
{
    let Some(callable) = from_word else {
        return Ok(());
    };
    if unit {
        let error = on_unit(alloc, callable)?;
        return errors.push(alloc, error);
    }
    if delegated {
        let error = on_transparent(alloc, "from_word", callable)?;
        return errors.push(alloc, error);
    }
    Ok(())
}

fn check_expr(
    alloc: Global,
    delegated: bool,
    from_expr: &Option<Callable>,
    errors: &mut Accumulator,
) -> Mem<()>
    ensures { OnOk result (held errors.new ≡ held errors.old ++ checks.expr_faults delegated from_expr.now) }
{
    let Some(callable) = from_expr else {
        return Ok(());
    };
    if delegated {
        let error = on_transparent(alloc, "from_expr", callable)?;
        return errors.push(alloc, error);
    }
    Ok(())
}

#[tactic(auto, unfolding(crate::specs::MetaChecks::on_unit))]
fn on_unit(alloc: Global, callable: &Callable) -> Mem<Error>
    ensures { IfOk result (λ error. error ≡ One (checks.on_unit callable.now)) }
{
    let text =
        "`from_word` cannot be used on unit structs because it conflicts with the generated impl";
    Ok(Error::custom(alloc, text)?.with_span(callable.as_ref()))
}

#[tactic(auto, unfolding(crate::specs::MetaChecks::on_transparent))]
fn on_transparent(alloc: Global, word: &str, callable: &Callable) -> Mem<Error>
    ensures { IfOk result (λ error. error ≡ One (checks.on_transparent word.now callable.now)) }
{
    let text = on_transparent_text(alloc, word)?;
    Ok(Error::custom(alloc, text.as_str())?.with_span(callable.as_ref()))
}

fn on_transparent_text(alloc: Global, word: &str) -> Mem<Text>
    ensures { IfOk result (λ text. text
        ≡ codes "`" ++ word.now ++ codes "` cannot be used on transparent structs because the implementation is entirely delegated to the inner type") }
{
    let mut text = Text::from_str(alloc, "`")?;
    text.push_str(word)?;
    text.push_str(
        "` cannot be used on transparent structs because the implementation is entirely delegated to the inner type",
    )?;
    Ok(text)
}
