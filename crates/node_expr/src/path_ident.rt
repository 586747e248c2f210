//! The identifier that a path is.

ghost use Rattle.std.specs.Prelude.{◌≡◌, ◌↔◌, IsTrue, option_map};
ghost use Rattle.std.specs.Option.{option_copied};
ghost use Rattle.tok_types.specs.Ident.{ident_text};
ghost use Rattle.node_expr.specs.PathIdent.{ident_of};

use crate::path::{Path, PathArguments};
use tok_types::Ident;

impl Path {
    /// Whether the path is one identifier, written as `text`.
    pub fn is_ident(&self, text: &str) -> bool
        ensures { IsTrue result ↔ (option_map ident_text (ident_of self.now) ≡ Some text.now) }
    {
        match self.get_ident() {
            Some(ident) => is_written(ident, text),
            None => false,
        }
    }

    /// The identifier that the path is: that of its one segment, where no `::` stands in front and
    /// no arguments follow.
    pub fn get_ident(&self) -> Option<&Ident>
        ensures { option_copied result ≡ ident_of self.now }
    {
        if self.leading_colon {
            return None;
        }
        let [segment] = self.segments.as_slice() else {
            return None;
        };
        match segment.arguments {
            PathArguments::None => Some(&segment.ident),
            _ => None,
        }
    }
}

/// Whether the identifier is written as `text`.
fn is_written(ident: &Ident, text: &str) -> bool
    ensures { IsTrue result ↔ (ident_text ident.now ≡ text.now) }
{
    if !ident.raw {
        return ident.text.is(text);
    }
    match text.strip_prefix("r#") {
        Some(name) => ident.text.is(name),
        None => false,
    }
}
