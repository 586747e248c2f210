//! A value and where it stands.

ghost use Rattle.std.specs.Prelude.{◌≡◌};
ghost use Rattle.std.specs.Borrow.{Lends, sem};
ghost use Rattle.std.specs.Fn.{FnOnceReturnsAt, FnOnceTakesAt};
ghost use Rattle.options_types.specs.SpannedValue as spec;
ghost use Rattle.options_types.specs.contracts.spanned_value.SpannedValue.{the_row};

use base_core::{Items, Mem, TryClone};
use node_span::Spanned;
use print_core::ToTokens;
use std::alloc::Global;
use std::ops::{Deref, DerefMut};
use tok_types::{Span, TokenTree};

/// A value, and the place in a text that a fault with it is told at.
#[derive(Drop)]
#[derive_where(Clone, Copy; T)]
pub struct SpannedValue<T> {
    value: T,
    span: Span,
}

impl<T> SpannedValue<T> {
    /// The value and where it stands.
    pub fn new(value: T, span: Span) -> SpannedValue<T>
        ensures { result ≡ spec.placed span value }
    {
        SpannedValue { value, span }
    }

    /// Where the value stands.
    pub fn span(&self) -> Span
        ensures { result ≡ self.now.span }
    {
        self.span
    }

    /// What the function makes of the value, at the same place.
    pub fn map_ref<U, F: FnOnce(&T) -> U>(&self, map_fn: F) -> SpannedValue<U>
        requires { FnOnceTakesAt F.FnOnce map_fn self.now.value }
        ensures span { result.span ≡ self.now.span }
        ensures value { FnOnceReturnsAt F.FnOnce map_fn self.now.value result.value }
    {
        let value = map_fn(&self.value);
        SpannedValue {
            value,
            span: self.span,
        }
    }

    /// The value alone.
    pub fn into_inner(self) -> T
        ensures { result ≡ self.value }
    {
        let SpannedValue { value, span: _ } = self;
        value
    }
}

impl<T> Deref for SpannedValue<T> {
    type Target = T;

    ghost deref_gives = { λ it value. value ≡ it.value };

    fn deref(&self) -> &T {
        &self.value
    }
}

impl<T> DerefMut for SpannedValue<T> {
    ghost deref_mut_gives = { λ it value. value ≡ it.value };

    fn deref_mut(&mut self) -> &mut T
        ensures* writes_back { sem 𝓛 (Lends (the_row T.row) T.row self.entry result (spec.placed self.old.span)) }
        ensures value { result.now ≡ self.old.value }
    {
        &mut self.value
    }
}

impl<T> AsRef<T> for SpannedValue<T> {
    fn as_ref(&self) -> &T
        ensures { result.now ≡ self.now.value }
    {
        &self.value
    }
}

/// The type's default, nowhere in a text.
impl<T: Default> Default for SpannedValue<T> {
    ghost use Rattle.tok_types.specs.declared.span.Span.TheVariants.{CallSite};

    ghost is_default = { λ it. T.is_default it.value × (it.span ≡ CallSite) };

    fn default() -> SpannedValue<T> {
        SpannedValue::new(T::default(), Span::CallSite)
    }
}

impl<T: Spanned> From<T> for SpannedValue<T> {
    ghost use Rattle.options_types.specs.SpannedValue.{placed};

    ghost from_gives = { λ value it. it ≡ placed (T.span_of value) value };

    fn from(value: T) -> SpannedValue<T> {
        let span = value.spanned();
        SpannedValue::new(value, span)
    }
}

impl<T: TryClone> TryClone for SpannedValue<T> {
    fn try_clone(&self, alloc: Global) -> Mem<SpannedValue<T>> {
        Ok(SpannedValue::new(self.value.try_clone(alloc)?, self.span))
    }
}

/// The tokens of the value, where they stand.
impl<T: ToTokens> ToTokens for SpannedValue<T> {
    ghost printing = { λ it. T.printing it.value };

    fn print(&self, alloc: Global, trees: &mut Items<TokenTree>) -> Mem<()> {
        self.value.print(alloc, trees)
    }
}
