//! Identifiers and faults have their names: a row is `text => name`.

use crate::told::Tested;
use crate::values::HERE;
use edge_core::ReadAll;
use std::alloc::Global;
use std::test::Fail;
use tok_core::LexError;
use tok_types::{Ident, IdentError};

// Texts with the name of the identifier, and whether it is raw; else why none is made.
pub const IDENTS: &str = "a_1 => a_1
_ => _
self => self
größe· => größe·
r => r
r#type => type raw
r#_x => _x raw
 => NotAnIdentifier
1a => NotAnIdentifier
a b => NotAnIdentifier
a-b => NotAnIdentifier
·a => NotAnIdentifier
'a => NotAnIdentifier
r# => NotAnIdentifier
r#1 => NotAnIdentifier
r#_ => NotAnIdentifier
r#self => NotAnIdentifier
r#Self => NotAnIdentifier
r#super => NotAnIdentifier
r#crate => NotAnIdentifier
r#r#a => NotAnIdentifier";

pub const FAULTS: &str = "a text that is too deep => TooDeep
a text that is wrong => Syntax
a text without memory => NoMemory
an identifier that is none => NotAnIdentifier
an identifier without memory => NoMemory
a read that fails => ReadFault
a read that is too long => TooLong
a read without memory => NoMemory";

/// The identifier that is written so.
pub fn ident(alloc: Global, text: &str) -> Tested<String> {
    match Ident::new(alloc, text, HERE) {
        Ok(made) => {
            if made.span != HERE || !made.to_text(alloc)?.is(text) {
                return Err(Fail::new(format_args!(
                    "{text} stands elsewhere, or is written otherwise"
                )));
            }
            let raw = if made.raw { " raw" } else { "" };
            Ok(format!(in alloc; "{}{raw}", made.text.as_str())?)
        }
        Err(error) => Ok(format!(in alloc; "{error}")?),
    }
}

pub fn fault(alloc: Global, fault: &str) -> Tested<String> {
    Ok(match fault {
        "a text that is too deep" => format!(in alloc; "{}", LexError::TooDeep { at: 1 })?,
        "a text that is wrong" => format!(in alloc; "{}", LexError::Syntax { at: 1 })?,
        "a text without memory" => format!(in alloc; "{}", LexError::NoMemory)?,
        "an identifier that is none" => format!(in alloc; "{}", IdentError::NotAnIdentifier)?,
        "an identifier without memory" => format!(in alloc; "{}", IdentError::NoMemory)?,
        "a read that fails" => format!(in alloc; "{}", ReadAll::ReadFault)?,
        "a read that is too long" => format!(in alloc; "{}", ReadAll::TooLong)?,
        "a read without memory" => format!(in alloc; "{}", ReadAll::NoMemory)?,
        _ => return Err(Fail::new(format_args!("{fault} is of no kind"))),
    })
}
