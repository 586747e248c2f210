//! The host that refuses.

ghost use Rattle.std.specs.Prelude.{◌≡◌, IfOk, codes};
ghost use Rattle.machine_host.specs.Made as made;
ghost use Rattle.machine_host.specs.Refusing as spec;

use crate::arg::{Arg, HostItem};
use crate::host::Host;
use crate::made::{custom, named_type};
use crate::place::{Place, Use};
use crate::said::Said;
use base_core::Mem;
use codegen_program::Decls;
use machine_value::Value;
use node_expr::{Path, Type};
use std::alloc::Global;
use util_core::Callable;

/// A host for tests. It offers each function, but none for a default, a word or no item, and answers the
/// fault `refused`. Each path takes a `String`. It has no type and no default.
pub struct RefusingHost {
    text: Type,
    ghost is_text: { text ≡ made.named_type (codes "String") },
}

impl RefusingHost {
    /// The host that knows no function and no type.
    pub fn new(alloc: Global) -> Mem<RefusingHost> {
        let text = named_type(alloc, "String")?;
        Ok(RefusingHost { text })
    }
}

impl Host for RefusingHost {
    ghost use Rattle.std.proofs.Common.{sym, true≢false};
    ghost use Rattle.machine_host.specs.Refusing.{refusing};

    ghost says = { λ host. refusing };

    ghost lawful = { λ host. record {
      answer = λ decls call place arg offered. tt;
      default_of = λ decls ty has. absurd (true≢false (sym has));
      convert = λ ty item known. tt;
      none_of = λ ty known. tt;
    } };

    fn offers(&self, _decls: &Decls, _call: Option<&Callable>, place: &Place) -> bool {
        is_refused(place.at)
    }

    fn takes(&self, _call: &Path) -> Option<&Type> {
        Some(&self.text)
    }

    fn knows(&self, _ty: &Type) -> bool {
        false
    }

    fn answer(
        &self,
        alloc: Global,
        _decls: &Decls,
        _call: Option<&Callable>,
        _place: &Place,
        _arg: Arg<'_>,
    ) -> Mem<Said> {
        custom(alloc, "refused")
    }

    fn has_default(&self, _decls: &Decls, _ty: &Type) -> bool {
        false
    }

    fn default_of(&self, _alloc: Global, _decls: &Decls, _ty: &Type) -> Mem<Value> {
        Ok(Value::Unit)
    }

    fn convert(&self, alloc: Global, _ty: &Type, _item: HostItem<'_>) -> Mem<Said> {
        custom(alloc, "refused")
    }

    fn none_of(&self, _alloc: Global, _ty: &Type) -> Mem<Option<Value>> {
        Ok(None)
    }
}

fn is_refused(at: Use) -> bool
    ensures { result ≡ spec.is_refused at }
{
    match at {
        Use::Default | Use::FromWord | Use::FromNone => false,
        _ => true,
    }
}

impl Drop for RefusingHost {
    fn drop(self) {
        let Self { text: _text } = self;
    }
}
