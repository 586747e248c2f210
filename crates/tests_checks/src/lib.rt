//! Rows of tables, each a line of one text, and what holds of every tree that a parser gives.
#![tactic(auto)]

use print_core::ToTokens;
use std::alloc::Global;
use std::hash::{DefaultHasher, Hash, Hasher};
use std::test::Fail;
use syn_core::{Parse, ParseFail};
use tok_core::{TokenStream, lex, to_text};

pub type Tested<T> = Result<T, Fail>;

/// The table with each row in one line: a line that begins with two spaces goes on with the row before.
pub fn unwrapped(alloc: Global, table: &str) -> Tested<String> {
    let mut rows = String::new(alloc);
    for line in table.lines() {
        match line.strip_prefix("  ") {
            Some(more) => rows.push_str(more)?,
            None => {
                if !rows.is_empty() {
                    rows.push('\n')?;
                }
                rows.push_str(line)?;
            }
        }
    }
    Ok(rows)
}

/// The text of a row and what stands behind its arrow, which is the text where it has none.
pub fn row_of(row: &str) -> (&str, &str) {
    row.split_once(" => ").unwrap_or((row, row))
}

/// The first column of a row, and the others.
pub fn kind_of(row: &str) -> Tested<(&str, &str)> {
    match row.split_once(" | ") {
        Some(columns) => Ok(columns),
        None => Err(Fail::new(format_args!("{row} has one column"))),
    }
}

/// No test knows the kind of this row.
pub fn no_kind<T>(row: &str) -> Tested<T> {
    Err(Fail::new(format_args!("{row} is of no kind")))
}

/// The tokens of a short text.
pub fn tokens(alloc: Global, source: u32, text: &str) -> Tested<TokenStream> {
    if text.len() > 4_000_000 {
        return Err(Fail::new(format_args!("the text is too long")));
    }
    match lex(alloc, source, text) {
        Ok(tokens) => Ok(tokens),
        Err(_) => Err(Fail::new(format_args!("{text} has no tokens"))),
    }
}

/// The tree that a parser has to give for the text.
pub fn given<T: Drop>(parsed: Parse<T>, text: &str) -> Tested<T> {
    match parsed {
        Ok(tree) => Ok(tree),
        Err(ParseFail::Syn(_)) => Err(Fail::new(format_args!("{text} is refused"))),
        Err(ParseFail::NoMemory) => Err(Fail::new(format_args!("no memory is left"))),
    }
}

/// Whether the printing of the node has this text.
pub fn prints<N: ToTokens>(alloc: Global, node: &N, printed: &str) -> Tested<()> {
    let tokens = node.to_token_stream(alloc)?;
    let text = to_text(alloc, &tokens)?;
    if text.is(printed) {
        return Ok(());
    }
    Err(Fail::new(format_args!("{printed} is printed {}", text.as_str())))
}

pub fn hash<N: Hash>(node: &N) -> u64 {
    let mut state = DefaultHasher::new();
    node.hash(&mut state);
    state.finish()
}
