//! Members that are read from a node's fields.

ghost use Rattle.std.specs.Prelude.{map};
ghost use Rattle.tok_types.specs.Ident.{ident_text};
ghost use Rattle.error_fault.specs.Outcome.{Outcome, under};
ghost use Rattle.error_core.specs.Answers.{Answers};
ghost use Rattle.body_core.specs.Data.{seen_fields};
ghost use Rattle.body_core.specs.Members as spec;

use crate::ast::fields::Fields;
use crate::ast::members::{ReadMember, read_members};
use crate::from_field::FromField;
use base_core::Items;
use error_core::{Fail, Result};
use node_core::{Field, Style};
use node_span::Spanned;
use std::alloc::Global;
use std::marker::PhantomData;
use tok_types::Ident;

impl<F: FromField + Drop> Fields<F> {
    /// The members that a node's fields are, at the node's place.
    ///
    /// Fails with the faults of all fields in order; those of a field in braces stand under its identifier.
    pub fn try_from(alloc: Global, fields: &node_core::Fields) -> Result<Fields<F>>
        ensures { Answers (seen_fields F.seen) result (spec.fields_meaning F.meaning fields.now) }
    {
        let members = read_fields(alloc, fields)?.into_vec();
        Ok(Fields::new(Style::of(fields), members).with_span(fields.spanned()))
    }
}

fn read_fields<F: FromField + Drop>(alloc: Global, fields: &node_core::Fields) -> Result<Items<F>>
    ensures { Answers (map F.seen) result (spec.members_meaning F.meaning fields.now) }
{
    match fields {
        node_core::Fields::Named(it) => read_members::<InBraces<F>>(alloc, it.named.as_slice()),
        node_core::Fields::Unnamed(it) => {
            read_members::<InParentheses<F>>(alloc, it.unnamed.as_slice())
        }
        node_core::Fields::Unit => Ok(Items::new(alloc)),
    }
}

/// A field in braces.
struct InBraces<F>(PhantomData<F>);

impl<F: FromField + Drop> ReadMember for InBraces<F> {
    type Node = Field;

    type Value = F;

    ghost Seen = { F.Seen };

    ghost seen = { F.seen };

    ghost meaning = { spec.named_meaning F.meaning };

    fn read(alloc: Global, node: &Field) -> Result<F> {
        let answer = F::from_field(alloc, node);
        match &node.ident {
            Some(name) => at_name(alloc, answer, name),
            None => answer,
        }
    }
}

/// A field in parentheses.
struct InParentheses<F>(PhantomData<F>);

impl<F: FromField + Drop> ReadMember for InParentheses<F> {
    type Node = Field;

    type Value = F;

    ghost Seen = { F.Seen };

    ghost seen = { F.seen };

    ghost meaning = { F.meaning };

    fn read(alloc: Global, node: &Field) -> Result<F> {
        F::from_field(alloc, node)
    }
}

/// The answer, whose faults stand in the field of this name.
fn at_name<F: FromField>(alloc: Global, answer: Result<F>, name: &Ident) -> Result<F>
    ensures { (outcome : Outcome F.Seen) → Answers F.seen answer outcome
        → Answers F.seen result (under (ident_text name.now) outcome) }
{
    match answer {
        Ok(value) => Ok(value),
        Err(fail) => match fail.into_error() {
            Some(error) => {
                let location = name.to_text(alloc)?;
                Err(Fail::Faults(error.at(alloc, location.as_str())?))
            }
            None => Err(Fail::NoMemory),
        },
    }
}
