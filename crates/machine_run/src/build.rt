//! What a run builds: the default of the receiver, the receiver, and what a transform makes of it.

ghost use Rattle.std.specs.Prelude.{◌≡◌, Some};
ghost use Rattle.std.specs.Option.{option_copied};
ghost use Rattle.error_core.specs.Answers.{Answers};
ghost use Rattle.machine_read.specs.Asked.{asked_of, element_asked};
ghost use Rattle.machine_read.specs.Building.{build_step};
ghost use Rattle.machine_read.specs.Elements.{element_of};
ghost use Rattle.machine_read.specs.Scopes.{under};
ghost use Rattle.machine_read.specs.Progress.{going};
ghost use Rattle.machine_read.specs.Reading.{transformed};
ghost use Rattle.machine_read.specs.Slots as slots;
ghost use Rattle.machine_read.specs.Statements as spec;
ghost use Rattle.machine_run.specs.Building.{AreMembers, form_built, member_value, members_built, woven_built};
ghost use Rattle.machine_run.specs.Runs.{making, run_setting};
ghost use Rattle.machine_state.specs.Seen.{slot_of, state_of};
ghost use Rattle.machine_run.specs.Steps.{Proceeds, default_of, with_default};
ghost use Rattle.machine_state.specs.Steps.{Builds, Comes, Goes, IsOutcome};

use crate::run::Run;
use crate::standing::Standing;
use base_core::{Items, Mem, Text, TryClone};
use codegen_program::{DefaultSource, Fallback, Forwarded, Init, PostfixTransform};
use error_core::{Error, Result};
use machine_outer::{Parts, are_stored, ident_among};
use machine_read::{Arg, Asked, Declared, Element, Host, Use};
use machine_state::{Progress, Slot, State, again, form_of, known, member, push_member};
use machine_value::Value;
use node_core::Style;
use node_expr::Type;
use std::result;
use tok_types::Ident;

/// The members of what is built, or what a default of one refuses.
type Members = result::Result<Items<(Text, Value)>, Error>;

impl<'p, H: Host, D: Declared> Run<'p, H, D> {
    /// Makes the default of the receiver, or ends with its faults.
    #[tactic(auto, using(machine_state::proofs::Stopped::goes_over, machine_state::proofs::Stopped::goes_on))]
    pub(crate) fn set_default(
        &self,
        asked: Asked<'_>,
        from: &DefaultSource,
        state: &mut State<'p>,
        progress: Progress,
    ) -> Mem<Progress>
        ensures { Goes (with_default (making H.says self.now default_of (asked_of asked.entry) from.now)) state.old progress state.new result }
    {
        match progress.over() {
            Some(over) => Ok(over),
            None => match known(self.source_value(asked, from))? {
                Ok(whole) => {
                    state.whole = whole;
                    Ok(Progress::Going)
                }
                Err(error) => Ok(Progress::Ended(error)),
            },
        }
    }

    /// The default of the receiver.
    fn source_value(&self, asked: Asked<'_>, from: &DefaultSource) -> Result<Value>
        ensures { Answers (λ it. it) result (making H.says self.now default_of (asked_of asked.entry) from.now) }
    {
        let alloc = self.scope.alloc;
        let setting = &self.scope.setting;
        match from {
            DefaultSource::Explicit(callable) => {
                setting.ask(
                    alloc,
                    callable,
                    Use::Default,
                    self.receiver.ty,
                    Arg::Nothing,
                )
            }
            DefaultSource::Trait => Ok(setting.default(alloc, self.receiver.ty)?),
            DefaultSource::FromIdent => match asked {
                Asked::Element(element) => self.from_ident(element),
                Asked::Cell(_) => Ok(setting.default(alloc, self.receiver.ty)?),
            },
        }
    }

    /// What the identifier of an element makes; without one it is the default of the type.
    fn from_ident(&self, element: Element<'_>) -> Result<Value>
        ensures { Answers (λ it. it) result (spec.from_ident (run_setting H.says self.now) self.now.receiver.ty.now (element_of element.entry)) }
    {
        let alloc = self.scope.alloc;
        let setting = &self.scope.setting;
        let ty = self.receiver.ty;
        match element {
            Element::Nested(_) | Element::Attributes(_) => Ok(setting.default(alloc, ty)?),
            Element::Input(it) => setting.from_ident(alloc, ty, Arg::Ident(&it.ident)),
            Element::Variant(it) => setting.from_ident(alloc, ty, Arg::Ident(&it.ident)),
            Element::TypeParam(it) => setting.from_ident(alloc, ty, Arg::Ident(&it.ident)),
            Element::Field(it) => {
                setting.from_ident(alloc, ty, Arg::OptionalIdent(it.ident.as_ref()))
            }
        }
    }

    /// Builds the receiver, of its members and of the parts that its fields take.
    pub(crate) fn build_form(
        &self,
        asked: Asked<'_>,
        name: &Ident,
        variant: &Option<Ident>,
        parts: &[Forwarded],
        inits: &[Init],
        standing: &Standing<'p>,
        progress: Progress,
    ) -> Mem<Progress>
        ensures { Proceeds (making H.says self.now build_step (asked_of asked.entry) name.now variant.now parts.now inits.now)
            standing.now progress standing.now result }
    {
        let style = self.receiver.built_style(asked);
        let variant = variant.as_ref();
        match parts {
            [] => self.build(style, name, variant, inits, &standing.state, progress),
            _ => self.build_of_parts(asked, name, variant, parts, inits, standing, progress),
        }
    }

    /// Builds the struct of the values of its members, or the variant, or what a default of one refuses.
    #[tactic(auto, using(machine_state::proofs::Stopped::goes_over, machine_state::proofs::Stopped::goes_on))]
    fn build(
        &self,
        style: Style,
        name: &Ident,
        variant: Option<&Ident>,
        inits: &[Init],
        state: &State<'p>,
        progress: Progress,
    ) -> Mem<Progress>
        ensures { Goes (going (λ it aside. form_built (run_setting H.says self.now) style name.now (option_copied variant.entry) inits.now it))
            state.now progress state.now result }
    {
        match progress.over() {
            Some(over) => Ok(over),
            None => self.built(style, name, variant, inits, state),
        }
    }

    /// What is built of the values of the members.
    fn built(
        &self,
        style: Style,
        name: &Ident,
        variant: Option<&Ident>,
        inits: &[Init],
        state: &State<'p>,
    ) -> Mem<Progress>
        ensures { Comes (form_built (run_setting H.says self.now) style name.now (option_copied variant.entry) inits.now (state_of state.now)) result }
    {
        match self.members(inits, state)? {
            None => Ok(Progress::Stuck),
            Some(Err(error)) => Ok(Progress::Built(Err(error))),
            Some(Ok(members)) => {
                let value = form_of(self.scope.alloc, name, variant, style, members)?;
                Ok(Progress::Built(Ok(value)))
            }
        }
    }

    /// Builds the form of its members and of parts of the element, where each part that is to be stored was stored.
    #[tactic(auto, using(machine_state::proofs::Stopped::goes_over, machine_state::proofs::Stopped::goes_on))]
    fn build_of_parts(
        &self,
        asked: Asked<'_>,
        name: &Ident,
        variant: Option<&Ident>,
        parts: &[Forwarded],
        inits: &[Init],
        standing: &Standing<'p>,
        progress: Progress,
    ) -> Mem<Progress>
        ensures { Proceeds (making H.says self.now build_step (asked_of asked.entry) name.now (option_copied variant.entry) parts.now inits.now)
            standing.now progress standing.now result }
    {
        match progress.over() {
            Some(over) => Ok(over),
            None => {
                if !are_stored(&standing.aside, parts) {
                    return Ok(Progress::Stuck);
                }
                self.built_of_parts(asked, name, variant, parts, inits, standing)
            }
        }
    }

    /// What is built of the members and of parts of the element. What a callable on the identifier refuses comes alone.
    fn built_of_parts(
        &self,
        asked: Asked<'_>,
        name: &Ident,
        variant: Option<&Ident>,
        parts: &[Forwarded],
        inits: &[Init],
        standing: &Standing<'p>,
    ) -> Mem<Progress>
        ensures { Comes (woven_built H.says self.now (asked_of asked.entry) name.now (option_copied variant.entry) parts.now inits.now standing.now) result }
    {
        let Some(members) = self.members(inits, &standing.state)? else {
            return Ok(Progress::Stuck);
        };
        let alloc = self.scope.alloc;
        let element = element_in(asked);
        match known(ident_among(alloc, &self.scope.setting, parts, element))? {
            Err(error) => Ok(Progress::Built(Err(error))),
            Ok(ident) => match members {
                Err(error) => Ok(Progress::Built(Err(error))),
                Ok(members) => {
                    let parts = Parts {
                        forwarded: parts,
                        ident: &ident,
                        aside: &standing.aside,
                        element,
                    };
                    let members = parts.woven(alloc, self.receiver.declared_fields(), members)?;
                    let style = self.receiver.built_style(asked);
                    let value = form_of(alloc, name, variant, style, members)?;
                    Ok(Progress::Built(Ok(value)))
                }
            },
        }
    }

    /// The members with their values, or what a default of one refuses. None where a slot has no value and nothing stands for it.
    fn members(&self, inits: &[Init], state: &State<'p>) -> Mem<Option<Members>>
        ensures { AreMembers result (members_built (run_setting H.says self.now) (state_of state.now) inits.now) }
    {
        let alloc = self.scope.alloc;
        let mut members = Items::new(alloc);
        for init in inits {
            match self.init_value(init, state)? {
                None => return Ok(None),
                Some(Err(error)) => return Ok(Some(Err(error))),
                Some(Ok(value)) => push_member(alloc, &mut members, &init.member, value)?,
            }
        }
        Ok(Some(Ok(members)))
    }

    /// The value of a member, or what a default refuses. None where its slot has no value and nothing stands for it.
    fn init_value(
        &self,
        init: &Init,
        state: &State<'p>,
    ) -> Mem<Option<result::Result<Value, Error>>>
        ensures { IsOutcome result (member_value (run_setting H.says self.now) (state_of state.now) init.now) }
    {
        match state.slots.get(init.slot as usize) {
            Some(slot) => self.slot_value(slot, &state.whole, init.fallback.as_ref()),
            None => Ok(Some(known(self.empty_list(
                self.nameless,
                &state.whole,
                init.fallback.as_ref(),
            ))?)),
        }
    }

    /// The value of a slot, or what stands for it.
    fn slot_value(
        &self,
        slot: &Slot<'p>,
        whole: &Value,
        fallback: Option<&Fallback>,
    ) -> Mem<Option<result::Result<Value, Error>>>
        ensures { IsOutcome result (slots.init_value (run_setting H.says self.now) whole.now (option_copied fallback.entry) (slot_of slot.now)) }
    {
        let alloc = self.scope.alloc;
        match slot {
            Slot::One(_, _, Some(value)) => Ok(Some(Ok(value.try_clone(alloc)?))),
            Slot::One(ty, _, None) => match fallback {
                Some(fallback) => Ok(Some(known(self.fallback_value(ty, whole, fallback))?)),
                None => Ok(None),
            },
            Slot::Several(ty, values) => {
                if values.is_empty() {
                    return Ok(Some(known(self.empty_list(ty, whole, fallback))?));
                }
                Ok(Some(Ok(Value::List(values.try_clone(alloc)?))))
            }
        }
    }

    /// What stands for a list without a value: it is empty, where nothing does.
    fn empty_list(&self, ty: &Type, whole: &Value, fallback: Option<&Fallback>) -> Result<Value>
        ensures { Answers (λ it. it) result (slots.empty_list (run_setting H.says self.now) ty.now whole.now (option_copied fallback.entry)) }
    {
        match fallback {
            Some(fallback) => self.fallback_value(ty, whole, fallback),
            None => Ok(Value::List(Items::new(self.scope.alloc))),
        }
    }

    /// What stands for the value of a slot that has none.
    fn fallback_value(&self, ty: &Type, whole: &Value, fallback: &Fallback) -> Result<Value>
        ensures { Answers (λ it. it) result (slots.fallback_value (run_setting H.says self.now) ty.now whole.now fallback.now) }
    {
        let alloc = self.scope.alloc;
        match fallback {
            Fallback::Inherit(ident) => Ok(member(alloc, ident, whole)?),
            Fallback::Explicit(callable) => {
                self.scope
                    .setting
                    .ask(alloc, callable, Use::Default, ty, Arg::Nothing)
            }
            Fallback::Trait => Ok(self.scope.setting.default(alloc, ty)?),
        }
    }

    /// What a transform makes of what was built.
    pub(crate) fn transform(&self, post: &PostfixTransform, progress: Progress) -> Mem<Progress>
        ensures { Builds (under H.says D.earlier self.now.scope transformed (Some post.now) self.now.receiver.ty.now) progress result }
    {
        match progress.built() {
            Ok(answer) => {
                let answer = self
                    .scope
                    .transformed(Some(post), self.receiver.ty, again(answer));
                Ok(Progress::Built(known(answer)?))
            }
            Err(over) => Ok(over),
        }
    }
}

/// The element; what is none stands as one without attributes.
fn element_in(asked: Asked<'_>) -> Element<'_>
    ensures { element_of result ≡ element_asked (asked_of asked.entry) }
{
    match asked {
        Asked::Cell(_) => Element::Attributes(&[]),
        Asked::Element(element) => element,
    }
}
