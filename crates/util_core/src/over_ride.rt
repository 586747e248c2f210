//! A value that is given, or is to come from elsewhere.

ghost use Rattle.std.specs.Prelude.{◌≡◌, is_some, unwrap_or, MatchOption};
ghost use Rattle.std.specs.Option.{ForNone, UnwrapsOrElse};
ghost use Rattle.std.specs.Borrow.{sem};
ghost use Rattle.meta_core.specs.Cells.{AnswersCell, cell_at};
ghost use Rattle.util_core.specs.Override as spec;
ghost use Rattle.util_core.specs.Lending.{lends_explicit};

use base_core::{Mem, TryClone};
use error_core::Result;
use meta_core::{ByType, Call, FromMeta, Reader};
use node_core::Meta;
use std::alloc::Global;
use std::fmt::{self, Display};

/// A value that is given, or that is to come from elsewhere: `default = path`, or `default` alone.
#[derive(Debug, Drop)]
#[derive_where(PartialEq, Eq; T)]
pub enum Override<T> {
    /// A word alone.
    Inherit,
    Explicit(T),
}

impl<T> Override<T> {
    /// The same over a reference to the value.
    pub fn as_ref(&self) -> Override<&T>
        ensures { spec.on_explicit (λ it. it.now) result ≡ self.now }
    {
        match self {
            Override::Inherit => Override::Inherit,
            Override::Explicit(value) => Override::Explicit(value),
        }
    }

    /// The same over the place of the value, to write there.
    pub fn as_mut(&mut self) -> Override<&mut T>
        ensures value { spec.on_explicit (λ it. it.now) result ≡ self.old }
        ensures* writes_back { sem 𝓛 (lends_explicit T.row self.entry result) }
    {
        match self {
            Override::Inherit => Override::Inherit,
            Override::Explicit(value) => Override::Explicit(value),
        }
    }

    /// Whether a value is given.
    pub fn is_explicit(&self) -> bool
        ensures { result ≡ is_some (spec.explicit self.now) }
    {
        matches!(self, Override::Explicit(_))
    }

    /// The value that is given.
    pub fn explicit(self) -> Option<T>
        ensures { result ≡ spec.explicit self }
    {
        match self {
            Override::Inherit => None,
            Override::Explicit(value) => Some(value),
        }
    }

    /// The value that is given, or else what `op` answers.
    pub fn unwrap_or_else<F: FnOnce() -> T>(self, op: F) -> T
        requires { ForNone (spec.explicit self) (F.pre op) }
        ensures { MatchOption (spec.explicit self) (F.post op result) (λ value. result ≡ value) }
    {
        match self {
            Override::Inherit => op(),
            Override::Explicit(value) => value,
        }
    }
}

impl<T: Drop> Override<T> {
    /// The value that is given, or else the other.
    pub fn unwrap_or(self, optb: T) -> T
        ensures { result ≡ unwrap_or (spec.explicit self) optb }
    {
        match self {
            Override::Inherit => optb,
            Override::Explicit(value) => value,
        }
    }
}

impl<T: Default> Override<T> {
    /// The value that is given, or else the type's default.
    pub fn unwrap_or_default(self) -> T
        ensures { UnwrapsOrElse (spec.explicit self) T.is_default result }
    {
        match self {
            Override::Inherit => T::default(),
            Override::Explicit(value) => value,
        }
    }
}

impl<T> Default for Override<T> {
    ghost use Rattle.std.specs.Prelude.{◌≡◌};
    ghost use Rattle.util_core.specs.declared.over_ride.Override.TheVariants.{Inherit};

    ghost is_default = { λ it. it ≡ Inherit };

    fn default() -> Override<T> {
        Override::Inherit
    }
}

impl<T> From<Option<T>> for Override<T> {
    ghost use Rattle.std.specs.Prelude.{◌≡◌};
    ghost use Rattle.util_core.specs.Override.{of_option};

    ghost from_gives = { λ value it. it ≡ of_option value };

    fn from(value: Option<T>) -> Override<T> {
        match value {
            None => Override::Inherit,
            Some(value) => Override::Explicit(value),
        }
    }
}

/// `Inherit`, or the value as ``Explicit `value` ``.
impl<T: Display> Display for Override<T> {
    ghost use Rattle.util_core.specs.Override.{shown};

    ghost output = { shown T.output };

    fn fmt<W: fmt::Write>(&self, f: &mut fmt::Formatter<W>) -> fmt::Result {
        match self {
            Override::Inherit => f.write_str("Inherit"),
            Override::Explicit(value) => write!(f, "Explicit `{value}`"),
        }
    }
}

impl<T: TryClone + Drop> TryClone for Override<T> {
    fn try_clone(&self, alloc: Global) -> Mem<Override<T>> {
        match self {
            Override::Inherit => Ok(Override::Inherit),
            Override::Explicit(value) => Ok(Override::Explicit(value.try_clone(alloc)?)),
        }
    }
}

impl<T: FromMeta> FromMeta for Override<T> {
    ghost use Rattle.util_core.specs.Override.{on_explicit, override_cells};
    ghost use Rattle.util_core.specs.declared.over_ride.Override.{Override};

    ghost Seen = { Override T.Seen };

    ghost seen = { on_explicit T.seen };

    ghost cells = { override_cells T.cells };

    fn cell(alloc: Global, call: Call<'_>) -> Result<Option<Override<T>>> {
        override_cell(alloc, &ByType::<T>::new(), call)
    }
}

/// A word inherits; what else is asked is given, as the type inside reads it.
pub fn override_cell<R: Reader>(
    alloc: Global,
    inner: &R,
    call: Call<'_>,
) -> Result<Option<Override<R::Value>>>
    requires { R.is_callable inner.now }
    ensures { AnswersCell (spec.on_explicit R.seen) result (cell_at (spec.override_cells (R.cells inner.now)) call.entry) }
{
    let value = match call {
        Call::Word => return Ok(Some(Override::Inherit)),
        Call::List(items) => inner.from_list(alloc, items)?,
        Call::String(text, span) => inner.from_text(alloc, text, span)?,
        Call::Char(value) => inner.from_char(alloc, value)?,
        Call::Bool(value) => inner.from_bool(alloc, value)?,
        Call::Value(lit) => inner.from_value(alloc, lit)?,
        Call::Expr(expr) => inner.from_expr(alloc, expr)?,
        Call::Meta(Meta::Path(_)) => return Ok(None),
        Call::Meta(item) => inner.from_meta(alloc, item)?,
        _ => return Ok(None),
    };
    Ok(Some(Override::Explicit(value)))
}
