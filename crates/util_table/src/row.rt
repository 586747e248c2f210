//! A row of a table, and the line that spells it.

ghost use Rattle.std.specs.Prelude.{◌≡◌, ◌≢◌, ◌∷◌, [], length, IfOk, MatchOption};
ghost use Rattle.util_table.specs.Table as spec;
ghost use Rattle.util_table.specs.Table.{words_of};

use base_core::{Mem, Text, TryClone};
use std::alloc::Global;

/// What a row renames.
#[derive(Clone, Copy)]
pub enum RenameKind {
    Field,
    Variant,
}

/// By this rule, the field or variant with this identifier gets this name.
pub struct Row {
    pub rule: Text,
    pub kind: RenameKind,
    pub identifier: Text,
    pub name: Text,
}

impl Drop for Row {
    fn drop(self) {
        let Self {
            rule: _rule,
            kind: _kind,
            identifier: _identifier,
            name: _name,
        } = self;
    }
}

impl TryClone for Row {
    fn try_clone(&self, alloc: Global) -> Mem<Row> {
        Ok(Row {
            rule: self.rule.try_clone(alloc)?,
            kind: self.kind,
            identifier: self.identifier.try_clone(alloc)?,
            name: self.name.try_clone(alloc)?,
        })
    }
}

/// The kind that the word names.
fn kind_of(word: &str) -> Option<RenameKind>
    ensures { result ≡ spec.kind_of word.now }
{
    match word {
        "field" => Some(RenameKind::Field),
        "variant" => Some(RenameKind::Variant),
        _ => None,
    }
}

/// The words of the line, where it has four.
fn four_words(line: &str) -> Option<(&str, &str, &str, &str)>
    ensures { MatchOption result
        (length (words_of line.now) ≢ 4)
        (λ four. words_of line.now ≡ four.0.now ∷ four.1.now ∷ four.2.now ∷ four.3.now ∷ []) }
{
    let (first, rest) = line.split_once(' ')?;
    let (second, rest) = rest.split_once(' ')?;
    let (third, fourth) = rest.split_once(' ')?;
    match fourth.split_once(' ') {
        Some(_) => None,
        None => Some((first, second, third, fourth)),
    }
}

/// The row that the line spells, if it spells one.
pub(crate) fn row_of(alloc: Global, line: &str) -> Mem<Option<Row>>
    ensures { IfOk result (λ row. row ≡ spec.row_of line.now) }
{
    let Some((rule, kind, identifier, name)) = four_words(line) else {
        return Ok(None);
    };
    let Some(kind) = kind_of(kind) else {
        return Ok(None);
    };
    if rule.is_empty() || identifier.is_empty() || name.is_empty() {
        return Ok(None);
    }
    Ok(Some(Row {
        rule: Text::from_str(alloc, rule)?,
        kind,
        identifier: Text::from_str(alloc, identifier)?,
        name: Text::from_str(alloc, name)?,
    }))
}
