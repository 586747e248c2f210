//! What leaves, options and lists mention.

ghost use Rattle.std.specs.Prelude.{◌≡◌, ◌++◌, map, OnOk};
ghost use Rattle.std.specs.Option.{option_map};
ghost use Rattle.body_usage.specs.Mentions.{all_of, nothing, optional, the_lifetime, the_type_param};

use crate::mentions::Mentions;
use crate::searched::Searched;
use base_core::{Items, Mem};
use tok_types::{Ident, Lifetime};

impl Searched for () {
    ghost mentions = { λ it. nothing };

    fn push_mentions<'n>(&'n self, _in_qself: bool, _found: &mut Mentions<'n>) -> Mem<()> {
        Ok(())
    }
}

impl Searched for Ident {
    ghost mentions = { the_type_param };

    fn push_mentions<'n>(&'n self, in_qself: bool, found: &mut Mentions<'n>) -> Mem<()> {
        found.push_type_param(self, in_qself)
    }
}

impl Searched for Lifetime {
    ghost mentions = { the_lifetime };

    fn push_mentions<'n>(&'n self, in_qself: bool, found: &mut Mentions<'n>) -> Mem<()> {
        found.push_lifetime(self, in_qself)
    }
}

impl<T: Searched> Searched for Option<T> {
    ghost mentions = { λ it. optional (option_map T.mentions it) };

    fn push_mentions<'n>(&'n self, in_qself: bool, found: &mut Mentions<'n>) -> Mem<()> {
        match self {
            None => Ok(()),
            Some(it) => it.push_mentions(in_qself, found),
        }
    }
}

impl<T: Searched> Searched for Items<T> {
    ghost mentions = { λ it. all_of (map T.mentions it) };

    fn push_mentions<'n>(&'n self, in_qself: bool, found: &mut Mentions<'n>) -> Mem<()> {
        push_all(self.as_slice(), in_qself, found)
    }
}

impl<T: Searched> Searched for Vec<T> {
    ghost mentions = { λ it. all_of (map T.mentions it.items) };

    fn push_mentions<'n>(&'n self, in_qself: bool, found: &mut Mentions<'n>) -> Mem<()> {
        push_all(self.as_slice(), in_qself, found)
    }
}

impl<'r, T: Searched> Searched for &'r T {
    ghost mentions = { λ it. T.mentions it.now };

    fn push_mentions<'n>(&'n self, in_qself: bool, found: &mut Mentions<'n>) -> Mem<()> {
        (**self).push_mentions(in_qself, found)
    }
}

/// Adds what each part mentions.
pub fn push_all<'n, T: Searched>(
    parts: &'n [T],
    in_qself: bool,
    found: &mut Mentions<'n>,
) -> Mem<()>
    ensures { OnOk result (found.new ≡ found.old ++ all_of (map T.mentions parts.now) in_qself) }
{
    for part in parts {
        part.push_mentions(in_qself, found)?;
    }
    Ok(())
}
