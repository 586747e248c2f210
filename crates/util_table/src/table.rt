//! A table, and what it renames.

ghost use Rattle.std.specs.Prelude.{◌≡◌, ◌≤◌, ℕ, List, [], length, IfOk, IfErr, unwrap_or, option_copied, option_and_then};
ghost use Rattle.util_table.specs.Table as spec;
ghost use Rattle.util_table.specs.Table.{bad_line, name_by, renamed, rule_at, rule_of, row_for, IsRefused};

use crate::fail::TableFail;
use crate::places::{RulePlaces, places_of};
use crate::reading::rows_of;
use crate::row::{RenameKind, Row};
use crate::rule::RenameRule;
use base_core::{Items, Mem, TryClone};
use std::alloc::Global;
use std::collections::BTreeMap;
use std::marker::Model;
use tok_core::MAX_LEN;

/// A table of names. Contracts see the list of its rows.
pub struct RenameTable {
    rows: Items<Row>,
    places: BTreeMap<String, RulePlaces>,
}

impl Model for RenameTable {
    ghost use Rattle.std.specs.Prelude.{List};
    ghost use Rattle.util_table.specs.Places.{IsTable};
    ghost use Rattle.util_table.specs.declared.row.Row.{Row};

    ghost Value = { List Row };

    ghost view = { λ it. it.rows };

    ghost invariant = { λ it. IsTable it.places it.rows };
}

impl RenameTable {
    /// The table that has no row. It takes no memory.
    pub fn empty(alloc: Global) -> RenameTable
        ensures { result ≡ [] }
    {
        RenameTable {
            rows: Items::new(alloc),
            places: BTreeMap::new(alloc),
        }
    }

    /// The table that the text spells. The text may have [`MAX_LEN`] bytes.
    ///
    /// The work is that of sorting the rows.
    ///
    /// ```
    /// match RenameTable::parse(alloc, TABLE) {
    ///     Ok(table) => Ok(table),
    ///     Err(TableFail::NoMemory) => Err(Fail::new(format_args!("no memory is left"))),
    ///     Err(TableFail::BadTable { line }) => Err(Fail::new(format_args!("line {line} is bad"))),
    /// }
    /// ```
    pub fn parse(alloc: Global, text: &str) -> Result<RenameTable, TableFail>
        requires { length text.now ≤ MAX_LEN }
        ensures rows { IfOk result (λ table. table ≡ spec.rows_of text.now) }
        ensures good { IfOk result (λ table. bad_line text.now ≡ None) }
        ensures fail { IfErr result (IsRefused text.now) }
    {
        let rows = rows_of(alloc, text)?;
        let places = places_of(alloc, rows.as_slice())?;
        Ok(RenameTable { rows, places })
    }

    /// The rule, if a row has it.
    pub fn find(&self, rule: &str) -> Option<RenameRule>
        ensures { result ≡ rule_of self.now rule.now }
    {
        let places = self.places.get(rule)?;
        Some(RenameRule::Named(places.first))
    }

    /// The rule. One that no row has keeps names.
    pub fn named(&self, rule: &str) -> RenameRule
        ensures value { result ≡ unwrap_or (rule_of self.now rule.now) RenameRule.Keep }
        ensures names { (kind : RenameKind) (identifier : List ℕ)
            → renamed self.now result kind identifier ≡ name_by self.now rule.now kind identifier }
    {
        self.find(rule).unwrap_or(RenameRule::Keep)
    }

    /// The name of the field by the rule.
    pub fn field<'a>(&'a self, rule: RenameRule, name: &'a str) -> &'a str
        ensures { result.now ≡ renamed self.now rule RenameKind.Field name.now }
    {
        self.renamed(rule, RenameKind::Field, name)
    }

    /// The name of the variant by the rule.
    pub fn variant<'a>(&'a self, rule: RenameRule, name: &'a str) -> &'a str
        ensures { result.now ≡ renamed self.now rule RenameKind.Variant name.now }
    {
        self.renamed(rule, RenameKind::Variant, name)
    }

    fn renamed<'a>(&'a self, rule: RenameRule, kind: RenameKind, name: &'a str) -> &'a str
        ensures { result.now ≡ renamed self.now rule kind name.now }
    {
        match rule {
            RenameRule::Keep => name,
            RenameRule::Named(number) => match self.row_for(number, kind, name) {
                Some(row) => row.name.as_str(),
                None => name,
            },
        }
    }

    /// The first row that is for the identifier, by the rule with this number.
    fn row_for(&self, number: u32, kind: RenameKind, identifier: &str) -> Option<&Row>
        ensures { option_copied result
            ≡ option_and_then (λ rule. row_for self.now rule kind identifier.now) (rule_at self.now number) }
    {
        let rule = self.rows.get(number as usize)?.rule.as_str();
        let at = self.places.get(rule)?.place_of(kind, identifier)?;
        self.rows.get(at as usize)
    }
}

impl TryClone for RenameTable {
    fn try_clone(&self, alloc: Global) -> Mem<RenameTable> {
        let rows = self.rows.try_clone(alloc)?;
        let places = places_of(alloc, rows.as_slice())?;
        Ok(RenameTable { rows, places })
    }
}

impl Drop for RenameTable {
    fn drop(self) {
        let Self {
            rows: _rows,
            places: _places,
        } = self;
    }
}
