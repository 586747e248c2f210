//! Pieces of syntax as values, and what stands where there is none.

ghost use Rattle.std.specs.Prelude.{◌≡◌, IfOk, option_map};
ghost use Rattle.std.specs.Option.{option_copied};
ghost use Rattle.error_core.specs.Answers.{Answers};
ghost use Rattle.machine_leaf.specs.Values.{syntax, syntax_list};
ghost use Rattle.machine_steps.specs.Reads as reads;
ghost use Rattle.machine_value.specs.Members as members;
ghost use Rattle.machine_value.specs.declared.value.Value.TheVariants as value;

use base_core::{Boxed, Items, Mem, Text};
use error_core::{Error, Fail, Result};
use machine_leaf::syntax_value;
use machine_value::Value;
use print_core::ToTokens;
use std::alloc::Global;

/// The pieces, each as a value.
pub(crate) fn list_value<T: ToTokens>(alloc: Global, pieces: &[T]) -> Mem<Value>
    ensures { IfOk result (λ it. it ≡ syntax_list T.printing pieces.now) }
{
    let mut values = Items::new(alloc);
    for piece in pieces {
        let value = syntax_value(alloc, piece)?;
        values.push(value)?;
    }
    Ok(Value::List(values))
}

/// The piece as a value, where there is one.
pub(crate) fn optional_value<T: ToTokens>(alloc: Global, piece: Option<&T>) -> Mem<Value>
    ensures { IfOk result (λ it. it ≡ value.Opt (option_map (syntax T.printing) (option_copied piece.entry))) }
{
    match piece {
        Some(piece) => {
            let value = syntax_value(alloc, piece)?;
            Ok(Value::Opt(Some(Boxed::new(alloc, value)?)))
        }
        None => Ok(Value::Opt(None)),
    }
}

/// What stands where the rules ask for no value.
pub(crate) fn no_value(alloc: Global) -> Value
    ensures { result ≡ members.no_value }
{
    Value::Text(Text::new(alloc))
}

/// The fault of what no declaration reads.
pub(crate) fn unread(alloc: Global) -> Result<Value>
    ensures { Answers (λ it. it) result reads.unread }
{
    Err(Fail::Faults(Error::custom(alloc, "no declaration")?))
}
