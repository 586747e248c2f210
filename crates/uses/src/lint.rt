//! A receiver of several fields.

ghost use Rattle.std.specs.Prelude.{[], ◌∷◌, codes};
ghost use Rattle.meta_core.specs.Answers.{Answers};
ghost use Rattle.receive_core.specs.Entries.{named_entries};
ghost use Rattle.receive_core.specs.Meaning.{entry_meaning, meaning};
ghost use Rattle.uses.specs.Lint.{lint_schema};

use receive_core::{Attribute, FieldReader, Items, Mem, NestedMeta, Receiver, Result, Text};
use std::alloc::Global;

/// `#[lint(name = "..", allow = "..", allow = "..", level = 5)]`
#[derive(Drop)]
pub struct Lint {
    pub name: Text,
    pub allowed: Items<Text>,
    pub level: u8,
}

impl Receiver for Lint {
    ghost use Rattle.uses.specs.declared.lint.Lint.{Lint as Lint'};

    ghost Seen = { Lint' };

    ghost seen = { λ lint. lint };

    ghost schema = { lint_schema };

    fn read(fields: &mut FieldReader<'_>) -> Mem<Option<Lint>> {
        let name = fields.single("name")?;
        let allowed = fields.multiple("allow")?;
        let level = fields.optional("level")?.unwrap_or(3);
        let Some(name) = name else {
            return Ok(None);
        };
        Ok(Some(Lint {
            name,
            allowed,
            level,
        }))
    }
}

/// The lint that the items are, or all that is wrong with them.
pub fn lint_of(alloc: Global, items: &[NestedMeta]) -> Result<Lint>
    ensures { Answers (λ lint. lint) result (meaning lint_schema items.now) }
{
    Lint::from_items(alloc, items)
}

/// The lint that the attributes `#[lint(..)]` are together, or all that is wrong with them.
pub fn lint_of_attributes(alloc: Global, attributes: &[Attribute]) -> Result<Lint>
    ensures { Answers (λ lint. lint) result (entry_meaning lint_schema (named_entries (codes "lint" ∷ []) attributes.now)) }
{
    let names = Items::of(alloc, Text::from_str(alloc, "lint")?)?;
    Lint::from_attributes(alloc, names.as_slice(), attributes)
}
