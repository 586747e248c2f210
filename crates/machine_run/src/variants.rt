//! Variants of an enum: which an item is, and which a text is.

ghost use Rattle.std.specs.Prelude.{List};
ghost use Rattle.base_core.specs.declared.text.Text.{Text};
ghost use Rattle.error_core.specs.Answers.{Answers};
ghost use Rattle.error_fault.specs.Outcome as outcomes;
ghost use Rattle.error_fault.specs.Outcome.{on_value};
ghost use Rattle.machine_read.specs.Asked.{asked_of, text_asked};
ghost use Rattle.machine_read.specs.Convert.{cells};
ghost use Rattle.machine_read.specs.Dispatch.{from_meta};
ghost use Rattle.machine_read.specs.Names.{meta_name};
ghost use Rattle.machine_read.specs.Progress.{Built};
ghost use Rattle.machine_run.specs.Runs.{of_enum};
ghost use Rattle.machine_state.specs.Chosen.{Chooses};
ghost use Rattle.machine_state.specs.Steps.{Stops};
ghost use Rattle.machine_steps.specs.Variants as spec;
ghost use Rattle.tok_types.specs.Ident.{ident_text};

use crate::run::Run;
use base_core::{Mem, Text};
use codegen_program::{
    Alternatives, Stmt, UnitArm, UnitArms, UnitForm, VariantArm, VariantArms, VariantForm,
};
use error_core::{Error, Fail, Result};
use machine_read::{Asked, Call, Declared, Host, NestedMeta, items_of};
use machine_state::{
    Chosen, Progress, bare, find_unit, find_variant, listed, located, refused, refused_format,
    text_of, unknown_name, unknown_value, wrapped,
};
use machine_value::Value;
use node_core::Meta;
use node_expr::Type;
use node_make::path_to_string;

impl<'p, H: Host, D: Declared> Run<'p, H, D> {
    /// The variant of the one item of a list.
    pub(crate) fn chosen(
        &self,
        items: &[NestedMeta],
        arms: &'p VariantArms<Stmt>,
        names: &Alternatives,
    ) -> Mem<Chosen<'p>>
        requires { D.reads_within self.now.scope.declared.now self.now.room }
        ensures { Chooses (λ inside. of_enum H.says D.earlier self.now
            (λ setting earlier enum. spec.variants setting earlier enum inside names.now arms.now items.now)) result }
    {
        let alloc = self.scope.alloc;
        match items {
            [] => Ok(refused(Error::too_few_items(alloc, 1)?)),
            [item] => self.one_item(item, arms, names),
            _ => Ok(refused(Error::too_many_items(alloc, 1)?)),
        }
    }

    fn one_item(
        &self,
        item: &NestedMeta,
        arms: &'p VariantArms<Stmt>,
        names: &Alternatives,
    ) -> Mem<Chosen<'p>>
        requires { D.reads_within self.now.scope.declared.now self.now.room }
        ensures { Chooses (λ inside. of_enum H.says D.earlier self.now
            (λ setting earlier enum. spec.one_item setting earlier enum inside names.now arms.now item.now)) result }
    {
        match item {
            NestedMeta::Meta(it) => self.by_variant(it, arms, names),
            NestedMeta::Lit(_) => refused_format(self.scope.alloc, "literal"),
            NestedMeta::NameValueInvalidExpr(_) => refused_format(self.scope.alloc, "literal"),
        }
    }

    /// The first variant of the name of the item.
    fn by_variant(
        &self,
        item: &Meta,
        arms: &'p VariantArms<Stmt>,
        names: &Alternatives,
    ) -> Mem<Chosen<'p>>
        requires { D.reads_within self.now.scope.declared.now self.now.room }
        ensures { Chooses (λ inside. of_enum H.says D.earlier self.now
            (λ setting earlier enum. spec.by_variant setting earlier enum inside names.now arms.now (meta_name item.now) item.now)) result }
    {
        let alloc = self.scope.alloc;
        let name = path_to_string(alloc, item.path())?;
        match find_variant(arms, name.as_str()) {
            Some(arm) => self.by_form(arm, item),
            None => unknown_name(alloc, &name, names, item),
        }
    }

    /// A variant by its form: a word, a list, or what the type of its one member reads.
    fn by_form(&self, arm: &'p VariantArm<Stmt>, item: &Meta) -> Mem<Chosen<'p>>
        requires { D.reads_within self.now.scope.declared.now self.now.room }
        ensures { (names : List Text) → Chooses (λ inside. of_enum H.says D.earlier self.now
            (λ setting earlier enum. spec.by_form setting earlier enum inside names arm.now.name (ident_text arm.now.ident) arm.now.form item.now)) result }
    {
        let alloc = self.scope.alloc;
        match &arm.form {
            VariantForm::Unit => match item {
                Meta::Path(_) => {
                    let variant = bare(alloc, self.receiver.ident, &arm.ident)?;
                    Ok(Chosen::Over(Progress::Built(Ok(variant))))
                }
                _ => refused_format(alloc, "non-path"),
            },
            VariantForm::Transparent { member, ty } => {
                let answer = self.transparent(arm, member, ty, item);
                Ok(Chosen::Over(Progress::of(answer)?))
            }
            VariantForm::Struct(stmts) => match item {
                Meta::List(list) => listed(stmts.as_slice(), items_of(alloc, &list.tokens)),
                Meta::Path(_) | Meta::NameValue(_) => refused_format(alloc, "non-list"),
            },
        }
    }

    /// A variant that is read as its one member is. Faults stand in the field of its name.
    fn transparent(
        &self,
        arm: &VariantArm<Stmt>,
        member: &Text,
        ty: &Type,
        item: &Meta,
    ) -> Result<Value>
        requires { D.reads_within self.now.scope.declared.now self.now.room }
        ensures { Answers (λ it. it) result (of_enum H.says D.earlier self.now
            (λ setting earlier enum. on_value (spec.wrapped enum (ident_text arm.now.ident) member.now)
            (outcomes.under arm.now.name (from_meta (cells setting earlier ty.now) item.now)))) }
    {
        let alloc = self.scope.alloc;
        match self.scope.answer(self.room, ty, Call::Meta(item)) {
            Ok(value) => {
                let variant = wrapped(alloc, self.receiver.ident, &arm.ident, member, value)?;
                Ok(variant)
            }
            Err(fail) => Err(located(alloc, fail, &arm.name)?),
        }
    }

    /// Reads the variant that the text of a string names.
    #[tactic(auto, using(machine_state::proofs::Stops::stops_over, machine_state::proofs::Stops::stops_on))]
    pub(crate) fn unit_names(
        &self,
        asked: Asked<'_>,
        arms: &UnitArms,
        names: &Alternatives,
        progress: Progress,
    ) -> Mem<Progress>
        requires { D.reads_within self.now.scope.declared.now self.now.room }
        ensures { Stops (Built (of_enum H.says D.earlier self.now
            (λ setting earlier enum. spec.unit_names setting earlier enum names.now arms.now (text_asked (asked_of asked.entry))))) progress result }
    {
        match progress.over() {
            Some(over) => Ok(over),
            None => Progress::of(self.variant_named(text_of(asked), arms, names)),
        }
    }

    /// The first variant of the name.
    fn variant_named(&self, text: &str, arms: &UnitArms, names: &Alternatives) -> Result<Value>
        requires { D.reads_within self.now.scope.declared.now self.now.room }
        ensures { Answers (λ it. it) result (of_enum H.says D.earlier self.now
            (λ setting earlier enum. spec.unit_names setting earlier enum names.now arms.now text.now)) }
    {
        match find_unit(arms, text) {
            Some(arm) => self.by_unit_form(arm),
            None => Err(Fail::Faults(unknown_value(self.scope.alloc, text, names)?)),
        }
    }

    /// A variant whose name stands alone.
    fn by_unit_form(&self, arm: &UnitArm) -> Result<Value>
        requires { D.reads_within self.now.scope.declared.now self.now.room }
        ensures { Answers (λ it. it) result (of_enum H.says D.earlier self.now
            (λ setting earlier enum. spec.by_unit_form setting earlier enum (ident_text arm.now.ident) arm.now.form)) }
    {
        let alloc = self.scope.alloc;
        match &arm.form {
            UnitForm::Unit => Ok(bare(alloc, self.receiver.ident, &arm.ident)?),
            UnitForm::Transparent { member, ty } => match self.scope.none(self.room, ty)? {
                Some(value) => {
                    let variant = wrapped(alloc, self.receiver.ident, &arm.ident, member, value)?;
                    Ok(variant)
                }
                None => Err(Fail::Faults(Error::unsupported_format(alloc, "literal")?)),
            },
            UnitForm::Other => Err(Fail::Faults(Error::unsupported_format(alloc, "literal")?)),
        }
    }
}
