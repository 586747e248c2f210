//! An identifier with its text.

ghost use Rattle.std.specs.Prelude.{◌≡◌, IfOk, IfErr, ◌↔◌, IsTrue, string_bytes};
ghost use Rattle.tok_types.specs.Ident.{ident_text, IsWritten};
ghost use Rattle.tok_types.specs.contracts.ident.IdentEq.TheImpl.Laws as total_eq;
ghost use Rattle.tok_types.specs.contracts.ident.IdentHash.TheImpl.Laws as hashing;
ghost use Rattle.tok_types.specs.contracts.ident.IdentOrd.TheImpl.Laws as ord;
ghost use Rattle.tok_types.specs.contracts.ident.IdentPartialEq.TheImpl.Laws as eq;
ghost use Rattle.tok_types.specs.contracts.ident.IdentPartialOrd.TheImpl.Laws as partial_ord;
ghost use Rattle.tok_types.specs.declared.ident.Ident.{Ident};
ghost use Rattle.util_core.specs.IdentString.{IsTextOf, Gives};

use base_core::{Items, Mem, TryClone};
use error_core::Result;
use meta_core::{Call, FromMeta};
use print_core::ToTokens;
use std::alloc::Global;
use std::cmp::Ordering;
use std::fmt::{self, Display};
use std::hash::{Hash, Hasher};
use std::marker::Model;
use std::result;
use tok_types::{Ident, IdentError, Span, TokenTree};

/// An identifier that keeps its text, as it is written. Contracts see the identifier.
pub struct IdentString {
    ident: Ident,
    string: String,
}

impl Model for IdentString {
    ghost use Rattle.std.specs.Prelude.{◌≡◌, string_bytes};
    ghost use Rattle.tok_types.specs.Ident.{ident_text};
    ghost use Rattle.tok_types.specs.declared.ident.Ident.{Ident};

    ghost Value = { Ident };

    ghost view = { λ it. it.ident };

    ghost invariant = { λ it. string_bytes it.string ≡ ident_text it.ident };
}

impl IdentString {
    /// The identifier with its text.
    pub fn new(alloc: Global, ident: Ident) -> Mem<IdentString>
        ensures { IfOk result (λ it. it ≡ ident) }
    {
        let string = ident.to_text(alloc)?.into_string()?;
        Ok(IdentString { ident, string })
    }

    /// The identifier.
    pub fn as_ident(&self) -> &Ident
        ensures { result.now ≡ self.now }
    {
        &self.ident
    }

    /// The text, with `r#` in front where the identifier is raw.
    pub fn as_str(&self) -> &str
        ensures { result.now ≡ ident_text self.now }
    {
        self.string.as_str()
    }

    /// Whether the text is `other`.
    pub fn is(&self, other: &str) -> bool
        ensures { IsTrue result ↔ (ident_text self.now ≡ other.now) }
    {
        self.as_str() == other
    }

    /// Where the identifier stands.
    pub fn span(&self) -> Span
        ensures { result ≡ self.now.span }
    {
        self.ident.span
    }

    /// The identifier alone.
    pub fn into_ident(self) -> Ident
        ensures { result ≡ self }
    {
        let Self {
            ident,
            string: _string,
        } = self;
        ident
    }

    /// The text alone.
    pub fn into_string(self) -> String
        ensures { string_bytes result ≡ ident_text self }
    {
        let Self {
            ident: _ident,
            string,
        } = self;
        string
    }

    /// The identifier that `f` makes of the text, in the same place.
    ///
    /// `NotAnIdentifier` exactly where what `f` gives is no identifier.
    pub fn map<F: FnOnce(String) -> String>(
        self,
        alloc: Global,
        f: F,
    ) -> result::Result<IdentString, IdentError>
        requires { (text : _) → IsTextOf self text → F.pre f text }
        ensures made { IfOk result (λ it. Gives (F.post f) self (λ text. IsWritten text it × (it.span ≡ self.span))) }
        ensures refused { IfErr result (λ e. e ≡ IdentError.NotAnIdentifier
            → Gives (F.post f) self (λ text. (it : Ident) → IsWritten text it → ⊥)) }
    {
        let span = self.span();
        let text = f(self.into_string());
        match Ident::new(alloc, text.as_str(), span) {
            Ok(ident) => Ok(IdentString {
                ident,
                string: text,
            }),
            Err(error) => Err(error),
        }
    }
}

impl Drop for IdentString {
    fn drop(self) {
        let Self {
            ident: _ident,
            string: _string,
        } = self;
    }
}

impl TryClone for IdentString {
    fn try_clone(&self, alloc: Global) -> Mem<IdentString> {
        IdentString::new(alloc, self.ident.try_clone(alloc)?)
    }
}

/// The text of the identifier.
impl Display for IdentString {
    ghost use Rattle.std.specs.Prelude.{Some};
    ghost use Rattle.tok_types.specs.Ident.{ident_text};

    ghost output = { λ it. Some (ident_text it) };

    fn fmt<W: fmt::Write>(&self, f: &mut fmt::Formatter<W>) -> fmt::Result {
        f.write_str(self.as_str())
    }
}

/// As the identifier: its place is not looked at.
impl PartialEq for IdentString {
    ghost eq = { ⟦<Ident as PartialEq>⟧.eq };

    ghost laws = { eq.laws-law };

    fn eq(&self, other: &IdentString) -> bool {
        self.ident == other.ident
    }
}

impl Eq for IdentString {
    ghost laws = { total_eq.laws-law };
}

impl PartialOrd for IdentString {
    ghost partial_cmp = { ⟦<Ident as PartialOrd>⟧.partial_cmp };

    ghost laws = { partial_ord.laws-law };

    fn partial_cmp(&self, other: &IdentString) -> Option<Ordering> {
        self.ident.partial_cmp(&other.ident)
    }
}

impl Ord for IdentString {
    ghost cmp = { ⟦<Ident as Ord>⟧.cmp };

    ghost total = { ord.total-law };

    ghost matches_partial_cmp = { ord.matches_partial_cmp-law };

    ghost matches_eq = { ord.matches_eq-law };

    fn cmp(&self, other: &IdentString) -> Ordering {
        self.ident.cmp(&other.ident)
    }
}

impl Hash for IdentString {
    ghost hash_input = { ⟦<Ident as Hash>⟧.hash_input };

    ghost respects_eq = { hashing.respects_eq-law };

    fn hash<H: Hasher>(&self, state: &mut H) {
        self.ident.hash(state);
    }
}

impl ToTokens for IdentString {
    ghost use Rattle.print_core.specs.Marks.{ident};

    ghost printing = { ident };

    fn print(&self, alloc: Global, trees: &mut Items<TokenTree>) -> Mem<()> {
        self.ident.print(alloc, trees)
    }
}

impl FromMeta for IdentString {
    ghost use Rattle.tok_types.specs.declared.ident.Ident.{Ident};
    ghost use Rattle.util_core.specs.IdentString.{ident_string_cells};

    ghost Seen = { Ident };

    ghost seen = { λ it. it };

    ghost cells = { ident_string_cells };

    fn cell(alloc: Global, call: Call<'_>) -> Result<Option<IdentString>> {
        match call {
            Call::Meta(item) => {
                let ident = Ident::from_meta(alloc, item)?;
                Ok(Some(IdentString::new(alloc, ident)?))
            }
            _ => Ok(None),
        }
    }
}
