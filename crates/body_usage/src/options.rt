//! What the search for parameters is for.

ghost use Rattle.std.specs.Prelude.{◌≡◌, ◌↔◌, IsTrue};
ghost use Rattle.body_usage.specs.declared.options.Purpose.TheVariants.{Declare};
ghost use Rattle.body_usage.specs.Occurs.{counts};

use std::marker::Model;

/// The goal of tracing generic parameter usage.
#[derive(Clone, Copy, Debug, PartialEq, Eq)]
pub enum Purpose {
    /// The answer bounds the parameters of an `impl`. What stands in the type in front of a path,
    /// as `T` in `<T as Trait>::Item`, does not count.
    BoundImpl,
    /// The answer declares the parameters of a new type. Each use counts.
    Declare,
}

/// How to search, made of a [`Purpose`].
#[derive(Clone, Copy, Debug)]
pub struct Options {
    purpose: Purpose,
}

impl Model for Options {
    ghost use Rattle.body_usage.specs.declared.options.Purpose.{Purpose};

    ghost Value = { Purpose };

    ghost view = { λ options. options.purpose };

    ghost inverse = { λ purpose. record { purpose = purpose } };
}

impl From<Purpose> for Options {
    ghost from_gives = { λ purpose options. options ≡ purpose };

    fn from(purpose: Purpose) -> Options {
        Options { purpose }
    }
}

impl Options {
    /// Whether the type in front of a path counts, `___` in `<___ as Trait>::Item`.
    pub fn include_type_path_qself(&self) -> bool
        ensures { IsTrue result ↔ (self.now ≡ Declare) }
    {
        self.purpose == Purpose::Declare
    }

    /// Whether a name counts, by whether it stands in the type in front of a path.
    pub(crate) fn counts(&self, in_qself: bool) -> bool
        ensures { result ≡ counts self.now in_qself }
    {
        match self.purpose {
            Purpose::BoundImpl => !in_qself,
            Purpose::Declare => true,
        }
    }
}
