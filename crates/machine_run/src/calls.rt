//! What a function of a unit hands on: to the type of its one member, or to a callable.

ghost use Rattle.std.specs.Prelude.{◌≡◌, Some};
ghost use Rattle.error_core.specs.Answers.{Answers};
ghost use Rattle.error_fault.specs.Outcome.{on_value};
ghost use Rattle.machine_read.specs.Answers.{Maps};
ghost use Rattle.machine_read.specs.Asked.{asked_of};
ghost use Rattle.machine_read.specs.Progress.{Built};
ghost use Rattle.machine_read.specs.Receivers.{declared_variants};
ghost use Rattle.machine_read.specs.Seen.{NothingSeen, seen_arg};
ghost use Rattle.machine_read.specs.Setting.{answer, ask, without_places};
ghost use Rattle.machine_run.specs.Runs.{in_run, making};
ghost use Rattle.machine_state.specs.Steps.{Stops};
ghost use Rattle.machine_steps.specs.Building.{alone as alone_in};
ghost use Rattle.machine_steps.specs.Calls as spec;
ghost use Rattle.tok_types.specs.Ident.{ident_text};

use crate::run::Run;
use base_core::{Mem, Text};
use codegen_program::{Callable, FuncName};
use error_core::{Fail, Result};
use machine_read::{Arg, Asked, Call, Declared, Host, Use};
use machine_state::{Progress, alone, bare};
use machine_steps::word_variant;
use machine_value::Value;
use node_expr::Type;
use std::alloc::{AllocError, Global};
use tok_types::Ident;

impl<'p, H: Host, D: Declared> Run<'p, H, D> {
    /// Reads the receiver as the type of its one member reads what the function is asked. No element is read so yet.
    #[tactic(auto, using(machine_state::proofs::Stops::stops_over, machine_state::proofs::Stops::stops_on))]
    pub(crate) fn delegate(
        &self,
        asked: Asked<'_>,
        name: &Ident,
        member: &Text,
        ty: &Type,
        progress: Progress,
    ) -> Mem<Progress>
        requires { D.reads_within self.now.scope.declared.now self.now.room }
        ensures { Stops (Built (in_run H.says D.earlier self.now
            (λ setting before receiver. spec.delegate setting before name.now member.now ty.now (asked_of asked.entry)))) progress result }
    {
        match progress.over() {
            Some(over) => Ok(over),
            None => match asked {
                Asked::Cell(call) => {
                    let answer = self.scope.answer(self.room, ty, call);
                    Progress::of(alone_of(self.scope.alloc, name, member, answer))
                }
                Asked::Element(_) => Err(AllocError),
            },
        }
    }

    /// Answers what the callable gives in the place of a function.
    #[tactic(auto, using(machine_state::proofs::Stops::stops_over, machine_state::proofs::Stops::stops_on))]
    pub(crate) fn call(
        &self,
        asked: Asked<'_>,
        callable: &Callable,
        at: FuncName,
        progress: Progress,
    ) -> Mem<Progress>
        ensures { Stops (making H.says self.now (λ setting receiver. spec.call setting receiver callable.now at (asked_of asked.entry))) progress result }
    {
        match progress.over() {
            Some(over) => Ok(over),
            None => match at {
                FuncName::FromWord => Progress::of(self.word(callable)),
                FuncName::FromNone => Progress::of(self.none(callable)),
                FuncName::FromExpr => Progress::of(self.expr(asked, callable)),
                _ => Ok(Progress::Stuck),
            },
        }
    }

    /// A word: the variant that the callable is the closure of, or what the host answers.
    fn word(&self, callable: &Callable) -> Result<Value>
        ensures { Answers (λ it. it) result (making H.says self.now
            (λ setting receiver. spec.word_outcome setting receiver callable.now (spec.word_variant callable.now (declared_variants receiver.decl)))) }
    {
        let alloc = self.scope.alloc;
        match word_variant(alloc, callable, self.receiver.variants())? {
            Some(variant) => Ok(bare(alloc, self.receiver.ident, variant)?),
            None => {
                let ty = self.receiver.ty;
                self.scope
                    .setting
                    .ask(alloc, callable, Use::FromWord, ty, Arg::Nothing)
            }
        }
    }

    /// No item.
    fn none(&self, callable: &Callable) -> Result<Value>
        ensures { Answers (λ it. it) result (making H.says self.now
            (λ setting receiver. spec.none_said (answer setting (Some (without_places callable.now)) Use.FromNone receiver.type NothingSeen))) }
    {
        self.scope
            .setting
            .ask_none(self.scope.alloc, callable, self.receiver.ty)
    }

    /// The expression of a name and a value.
    fn expr(&self, asked: Asked<'_>, callable: &Callable) -> Result<Value>
        ensures { Answers (λ it. it) result (making H.says self.now
            (λ setting receiver. ask setting callable.now Use.FromExpr receiver.type (spec.expr_seen (asked_of asked.entry)))) }
    {
        self.scope.setting.ask(
            self.scope.alloc,
            callable,
            Use::FromExpr,
            self.receiver.ty,
            expr_of(asked),
        )
    }
}

/// The expression of a name and a value; nothing else has one.
fn expr_of(asked: Asked<'_>) -> Arg<'_>
    ensures { seen_arg result ≡ spec.expr_seen (asked_of asked.entry) }
{
    match asked {
        Asked::Cell(Call::Expr(it)) => Arg::Expr(it),
        Asked::Cell(_) | Asked::Element(_) => Arg::Nothing,
    }
}

/// The answer as the struct of this one member; faults stay.
fn alone_of(alloc: Global, name: &Ident, member: &Text, answer: Result<Value>) -> Result<Value>
    ensures { Maps (on_value (alone_in (ident_text name.now) member.now)) answer result }
{
    match answer {
        Ok(value) => {
            let it = alone(alloc, name, member, value)?;
            Ok(it)
        }
        Err(fail) => Err(fail),
    }
}
