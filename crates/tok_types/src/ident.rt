//! Identifiers and lifetimes.

ghost use Rattle.std.specs.Prelude.{◌≡◌, ◌++◌, IfOk, IfErr, OnOk};

use crate::error::IdentError;
use crate::names::is_ident;
use crate::span::Span;
use base_core::{Mem, Text};
use std::alloc::Global;

/// An identifier: its text without `r#`, and whether it was written with it.
#[derive(Debug)]
#[derive_where(PartialEq, Eq, PartialOrd, Ord, Hash)]
pub struct Ident {
    pub text: Text,
    pub raw: bool,
    #[derive_where(skip(EqHashOrd))]
    pub span: Span,
}

/// A lifetime: the identifier after its `'`. The span is that of the whole.
#[derive(Debug)]
#[derive_where(PartialEq, Eq, PartialOrd, Ord, Hash)]
pub struct Lifetime {
    pub ident: Ident,
}

impl Ident {
    ghost use Rattle.tok_types.specs.Ident.{IsToken, IsWritten, ident_text};

    /// The identifier that `text` is, `r#` in front of a raw one.
    ///
    /// `NotAnIdentifier` exactly where the text is no identifier token.
    pub fn new(alloc: Global, text: &str, span: Span) -> Result<Ident, IdentError>
        ensures made { IfOk result (λ it. IsWritten text.now it × (it.span ≡ span)) }
        ensures refused { IfErr result (λ e. e ≡ IdentError.NotAnIdentifier → (it : Ident) → IsWritten text.now it → ⊥) }
    {
        match text.strip_prefix("r#") {
            Some(name) => Ident::named(alloc, name, true, span),
            None => Ident::named(alloc, text, false, span),
        }
    }

    /// The identifier of this name.
    fn named(alloc: Global, name: &str, raw: bool, span: Span) -> Result<Ident, IdentError>
        ensures made { IfOk result (λ it. (it ≡ record { text = name.now; raw = raw; span = span }) × IsToken it) }
        ensures refused { IfErr result (λ e. e ≡ IdentError.NotAnIdentifier → IsToken (record { text = name.now; raw = raw; span = span }) → ⊥) }
    {
        let characters: Vec<char> = name.chars().collect(alloc)?;
        if !is_ident(&characters, raw) {
            return Err(IdentError::NotAnIdentifier);
        }
        let text = Text::from_str(alloc, name)?;
        Ok(Ident { text, raw, span })
    }

    /// The identifier as it is written, with `r#` where it is raw.
    pub fn to_text(&self, alloc: Global) -> Mem<Text>
        ensures { IfOk result (λ text. text ≡ ident_text self.now) }
    {
        let mut text = Text::new(alloc);
        self.push_to(&mut text)?;
        Ok(text)
    }

    /// Writes the identifier behind `text`.
    pub fn push_to(&self, text: &mut Text) -> Mem<()>
        ensures { OnOk result (text.new ≡ text.old ++ ident_text self.now) }
    {
        if self.raw {
            text.push_str("r#")?;
        }
        text.push_str(self.text.as_str())
    }
}

impl Drop for Ident {
    fn drop(self) {
        let Self {
            text: _text,
            raw: _,
            span: _,
        } = self;
    }
}

impl Drop for Lifetime {
    fn drop(self) {
        let Self { ident: _ident } = self;
    }
}
