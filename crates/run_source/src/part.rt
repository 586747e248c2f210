//! A text as a list of items.

ghost use Rattle.std.specs.Prelude.{◌≡◌, ◌≤◌, length, IfOk, Some};
ghost use Rattle.law_options.specs.Places as places;
ghost use Rattle.run_source.specs.Parts as spec;
ghost use Rattle.run_source.specs.Source as source;

use crate::source::Texts;
use base_core::{Items, Mem};
use node_core::DeriveInput;
use run_accepted::RunError;
use std::alloc::{AllocError, Global};
use syn_core::{ParseFail, parse_items};
use syn_grammar::Cursor;
use syn_items::item_prefix;
use tok_core::{LexError, MAX_LEN, lex};
use tok_types::{Span, TokenStream, TokenTree};

/// What a text is read to. A place is a byte of it.
pub(crate) enum Part {
    /// More than 128 delimiters are open at `at`.
    TooDeep { at: u32 },
    /// The text is no tokens, or these are no items, from `at` on.
    Syntax { at: u32 },
    Items(Items<DeriveInput>),
}

impl Part {
    /// The items of this part and a second one. Of a part that is too deep and one that is wrong, the former is told.
    pub(crate) fn into_texts(self, second: Part) -> Result<Texts, RunError>
        ensures { source.Combines self second result }
    {
        match self {
            Part::TooDeep { at } => Err(RunError::TooDeep { part: 1, at }),
            Part::Syntax { at } => Err(second.behind_wrong(at)),
            Part::Items(declarations) => second.with_declarations(declarations),
        }
    }

    /// What is told of this part behind one that is wrong at this byte.
    fn behind_wrong(self, wrong_at: u32) -> RunError
        ensures { source.told (Part.Syntax wrong_at) self ≡ Some result }
    {
        match self {
            Part::TooDeep { at } => RunError::TooDeep { part: 2, at },
            Part::Syntax { .. } | Part::Items(..) => RunError::Syntax {
                part: 1,
                at: wrong_at,
            },
        }
    }

    /// The items of this part behind these declarations.
    fn with_declarations(self, declarations: Items<DeriveInput>) -> Result<Texts, RunError>
        ensures { source.Combines (Part.Items declarations) self result }
    {
        match self {
            Part::TooDeep { at } => Err(RunError::TooDeep { part: 2, at }),
            Part::Syntax { at } => Err(RunError::Syntax { part: 2, at }),
            Part::Items(subjects) => Ok(Texts {
                declarations,
                subjects,
            }),
        }
    }
}

impl Drop for Part {
    fn drop(self) {
        match self {
            Part::TooDeep { at: _ } => {}
            Part::Syntax { at: _ } => {}
            Part::Items(_items) => {}
        }
    }
}

/// Reads a text, which has the number `source`.
pub(crate) fn read_part(alloc: Global, source: u32, text: &str) -> Mem<Part>
    requires { length text.now ≤ MAX_LEN }
    ensures { IfOk result (spec.IsPart source text.now) }
{
    match lex(alloc, source, text) {
        Ok(tokens) => read_items(alloc, &tokens),
        Err(LexError::TooDeep { at }) => Ok(Part::TooDeep { at }),
        Err(LexError::Syntax { at }) => Ok(Part::Syntax { at }),
        Err(LexError::NoMemory) => Err(AllocError),
    }
}

fn read_items(alloc: Global, tokens: &TokenStream) -> Mem<Part>
    ensures { IfOk result (spec.IsOf tokens.now) }
{
    match parse_items(alloc, tokens) {
        Ok(items) => Ok(Part::Items(items)),
        Err(ParseFail::Syn(_)) => {
            let count = item_prefix(alloc, tokens)?;
            let at = start_of(&tokens.trees.as_slice()[count..]);
            Ok(Part::Syntax { at })
        }
        Err(ParseFail::NoMemory) => Err(AllocError),
    }
}

/// The byte at which the first of the tokens starts.
fn start_of(trees: &[TokenTree]) -> u32
    ensures { result ≡ spec.start_at trees.now }
{
    start(Cursor::new(trees).here())
}

fn start(span: Span) -> u32
    ensures { result ≡ places.start_of span }
{
    match span {
        Span::CallSite => 0,
        Span::At { start, .. } => start,
    }
}
