//! A word that is there or not.

ghost use Rattle.std.specs.Prelude.{◌≡◌, Some, is_some};
ghost use Rattle.std.specs.Option.{unwrap_or};
ghost use Rattle.tok_types.specs.declared.span.Span.TheVariants.{CallSite};

use error_core::{Error, Fail, Result};
use meta_core::{Call, FromMeta};
use node_core::Meta;
use node_span::Spanned;
use std::alloc::Global;
use tok_types::Span;

/// Whether a word stands in a list, and where. Where no item is, it is absent.
///
/// Two flags have no `==`: they may be present at places of their own.
#[derive(Clone, Copy, Debug)]
pub struct Flag(pub Option<Span>);

impl Flag {
    /// A flag that is present, nowhere in a text.
    pub fn present() -> Flag
        ensures { result.0 ≡ Some CallSite }
    {
        Flag(Some(Span::CallSite))
    }

    /// Whether the word is there.
    pub fn is_present(&self) -> bool
        ensures { result ≡ is_some self.now.0 }
    {
        self.0.is_some()
    }

    /// The same as [`is_present`](Flag::is_present).
    pub fn is_some(&self) -> bool
        ensures { result ≡ is_some self.now.0 }
    {
        self.is_present()
    }

    /// Where the word stands; of an absent one [`Span::CallSite`].
    pub fn span(&self) -> Span
        ensures { result ≡ unwrap_or self.now.0 CallSite }
    {
        self.0.unwrap_or(Span::CallSite)
    }
}

/// An absent flag.
impl Default for Flag {
    ghost use Rattle.std.specs.Prelude.{◌≡◌, None};

    ghost is_default = { λ flag. flag.0 ≡ None };

    fn default() -> Flag {
        Flag(None)
    }
}

impl FromMeta for Flag {
    ghost use Rattle.std.specs.Prelude.{Option};
    ghost use Rattle.tok_types.specs.declared.span.Span.{Span};
    ghost use Rattle.util_core.specs.Flag.{flag_cells};

    ghost Seen = { Option Span };

    ghost seen = { λ flag. flag.0 };

    ghost cells = { flag_cells };

    fn cell(alloc: Global, call: Call<'_>) -> Result<Option<Flag>> {
        match call {
            Call::Meta(Meta::Path(path)) => {
                let flag = Flag(Some(path.spanned()));
                Ok(Some(flag))
            }
            Call::Meta(item) => {
                <()>::from_meta(alloc, item)?;
                Err(Fail::Faults(Error::unsupported_format(alloc, "list")?))
            }
            Call::Absent => Ok(Some(Flag(None))),
            _ => Ok(None),
        }
    }
}

impl From<Flag> for bool {
    ghost use Rattle.std.specs.Prelude.{◌≡◌, is_some};

    ghost from_gives = { λ flag it. it ≡ is_some flag.0 };

    fn from(flag: Flag) -> bool {
        flag.is_present()
    }
}

impl From<bool> for Flag {
    ghost use Rattle.std.specs.Prelude.{◌≡◌, Some, None, if◌then◌else◌};
    ghost use Rattle.tok_types.specs.declared.span.Span.TheVariants.{CallSite};

    ghost from_gives = { λ it flag. flag.0 ≡ (if it then Some CallSite else None) };

    fn from(it: bool) -> Flag {
        if it { Flag::present() } else { Flag(None) }
    }
}
