//! Errors that rows make by commands.

use crate::rows::{first_word, names, number, place, span_of};
use error_core::{Accumulator, Error, Fail, Items, Mem, Result, Span, Text, TryClone};
use node_core::{
    Expr, Ident, Lit, LitBool, LitStr, Literal, Path, PathArguments, PathSegment, SynError,
};
use std::alloc::Global;

/// The error that the commands make. Each makes one more error, or takes the last ones to make one.
pub fn made(alloc: Global, commands: &str) -> Mem<Error> {
    let mut errors = Vec::new(alloc);
    for command in commands.split(';') {
        let (word, argument) = first_word(command.trim());
        let error = next(alloc, &mut errors, word, argument)?;
        errors.push(error)?;
    }
    last(alloc, &mut errors)
}

/// Takes the last error.
fn last(alloc: Global, errors: &mut Vec<Error>) -> Mem<Error> {
    match errors.pop() {
        Some(error) => Ok(error),
        None => Error::custom(alloc, "no error is made"),
    }
}

fn next(alloc: Global, errors: &mut Vec<Error>, word: &str, argument: &str) -> Mem<Error> {
    match word {
        "at" => last(alloc, errors)?.at(alloc, argument),
        "span" => Ok(last(alloc, errors)?.with_span_at(span_of(argument))),
        "clone" => last(alloc, errors)?.try_clone(alloc),
        "flatten" => last(alloc, errors)?.flatten(alloc),
        "widen" => widened(alloc, last(alloc, errors)?),
        "gather" => gathered(alloc, errors, number(argument)),
        "path" => of_path(alloc, errors, argument, &path(alloc)?),
        "literal" => of_literal(alloc, argument),
        "syntax" => Error::from_syn(alloc, two_of_syntax(alloc)?),
        "collected" => collected(alloc),
        "spilled" => spilled(alloc),
        "deep" => deep(alloc, number(argument)),
        "pushed" => pushed(alloc, number(argument)),
        _ => created(alloc, word, argument),
    }
}

fn created(alloc: Global, word: &str, argument: &str) -> Mem<Error> {
    let (first, others) = first_word(argument);
    match word {
        "custom" => Error::custom(alloc, argument),
        "torn" => Error::custom(alloc, "`a`\n\t\"\\"),
        "duplicate" => Error::duplicate_field(alloc, argument),
        "missing" => Error::missing_field(alloc, argument),
        "unknown" => Error::unknown_field(alloc, argument),
        "unknown_with" => {
            Error::unknown_field_with_alts(alloc, first, names(alloc, others)?.as_slice())
        }
        "shape" => Error::unsupported_shape(alloc, argument),
        "shape_with" => Error::unsupported_shape_with_expected(alloc, first, others),
        "format" => Error::unsupported_format(alloc, argument),
        "type" => Error::unexpected_type(alloc, argument),
        "value" => Error::unknown_value(alloc, argument),
        "value_with" => {
            Error::unknown_value_with_alts(alloc, first, names(alloc, others)?.as_slice())
        }
        "few" => Error::too_few_items(alloc, number(argument) as usize),
        "many" => Error::too_many_items(alloc, number(argument) as usize),
        _ => Error::custom(alloc, "no such command"),
    }
}

/// The error of a path, or the last one with it.
fn of_path(alloc: Global, errors: &mut Vec<Error>, word: &str, path: &Path) -> Mem<Error> {
    match word {
        "duplicate" => Error::duplicate_field_path(alloc, path),
        "unknown" => Error::unknown_field_path(alloc, path),
        "unknown_with" => {
            Error::unknown_field_path_with_alts(alloc, path, names(alloc, "c")?.as_slice())
        }
        "at" => last(alloc, errors)?.at_path(alloc, path),
        "span" => Ok(last(alloc, errors)?.with_span(path)),
        _ => Error::custom(alloc, "no such command"),
    }
}

/// The path `::a::b`.
fn path(alloc: Global) -> Mem<Path> {
    let mut segments = Items::new(alloc);
    for name in ["a", "b"] {
        let text = Text::from_str(alloc, name)?;
        let raw = false;
        let span = Span::CallSite;
        let ident = Ident { text, raw, span };
        let arguments = PathArguments::None;
        segments.push(PathSegment {
            ident,
            arguments,
            span,
        })?;
    }
    Ok(Path {
        leading_colon: true,
        segments,
        span: place(3, 9),
    })
}

/// The error of the literal `true`, of an expression or of a string.
fn of_literal(alloc: Global, word: &str) -> Mem<Error> {
    let span = place(4, 8);
    let literal = Lit::Bool(LitBool { value: true, span });
    match word {
        "type" => Error::unexpected_lit_type(alloc, &literal),
        "expression" => Error::unexpected_expr_type(alloc, &Expr::Lit(literal)),
        _ => Error::unknown_lit_str_value(alloc, &string(alloc, "quick", span)?),
    }
}

fn string(alloc: Global, value: &str, span: Span) -> Mem<LitStr> {
    let value = Text::from_str(alloc, value)?;
    let text = Text::from_str(alloc, "\"\"")?;
    let token = Literal { text, span };
    Ok(LitStr { value, token, span })
}

/// The errors of syntax `a` and `b`, at two places.
pub fn two_of_syntax(alloc: Global) -> Mem<SynError> {
    let mut error = SynError::new(alloc, place(1, 2), "a")?;
    error.combine(alloc, SynError::new(alloc, place(3, 4), "b")?)?;
    Ok(error)
}

/// The error with the alternatives `b` and `a` too.
fn widened(alloc: Global, error: Error) -> Mem<Error> {
    let alts = names(alloc, "b a")?;
    error.add_sibling_alts_for_unknown_field(alloc, alts.as_slice())
}

/// One error of so many of the last ones, in their order.
fn gathered(alloc: Global, errors: &mut Vec<Error>, count: u32) -> Mem<Error> {
    let mut several = Vec::new(alloc);
    for _error in 0..count {
        several.push(last(alloc, errors)?)?;
    }
    several.as_mut_slice().reverse();
    if several.is_empty() {
        return Error::custom(alloc, "no error is there");
    }
    Error::multiple(alloc, several)
}

/// A tree of this many levels, each the tree so far and one new leaf.
fn deep(alloc: Global, levels: u32) -> Mem<Error> {
    let mut tree = Error::unknown_field(alloc, "k")?;
    for _level in 0..levels {
        let mut two = Vec::new(alloc);
        two.push(tree)?;
        two.push(Error::unknown_field(alloc, "k")?)?;
        tree = Error::multiple(alloc, two)?;
    }
    Ok(tree)
}

/// So many errors of one accumulator.
fn pushed(alloc: Global, count: u32) -> Mem<Error> {
    let mut errors = Error::accumulator(alloc);
    let pushed = push_many(alloc, &mut errors, count);
    let outcome = errors.finish();
    pushed?;
    let given = match outcome {
        Ok(()) => None,
        Err(fail) => fail.into_error(),
    };
    match given {
        Some(error) => Ok(error),
        None => Error::custom(alloc, "no error is given"),
    }
}

fn push_many(alloc: Global, errors: &mut Accumulator, count: u32) -> Mem<()> {
    for _error in 0..count {
        errors.push(alloc, Error::custom(alloc, "a")?)?;
    }
    Ok(())
}

fn seven() -> Result<u8> {
    Ok(7)
}

/// Collects `a`, `b` of an outcome, `c` and `d`. The values of the outcomes that have one.
fn collect(errors: &mut Accumulator, alloc: Global) -> Mem<Option<u8>> {
    errors.push(alloc, Error::custom(alloc, "a")?)?;
    let refused: Result<u8> = Err(Fail::Faults(Error::custom(alloc, "b")?));
    let none = errors.handle(alloc, refused)?;
    let mut more = Vec::new(alloc);
    more.push(Error::custom(alloc, "c")?)?;
    more.push(Error::custom(alloc, "d")?)?;
    errors.extend(alloc, more)?;
    let value = errors.handle_in(alloc, seven)?;
    Ok(if none.is_none() { value } else { None })
}

/// What an accumulator gives as one error in place of a value.
fn collected(alloc: Global) -> Mem<Error> {
    let mut errors = Error::accumulator(alloc);
    let value = collect(&mut errors, alloc);
    let outcome = errors.finish_with(5);
    if value != Ok(Some(7)) {
        return Error::custom(alloc, "the value is lost");
    }
    let given = match outcome {
        Ok(_) => None,
        Err(fail) => fail.into_error(),
    };
    match given {
        Some(error) => Ok(error),
        None => Error::custom(alloc, "no error is given"),
    }
}

/// The errors that an accumulator holds.
fn spilled(alloc: Global) -> Mem<Error> {
    let mut errors = Error::accumulator(alloc);
    let value = collect(&mut errors, alloc);
    let inner = errors.into_inner();
    if inner.is_empty() || value != Ok(Some(7)) {
        return Error::custom(alloc, "a value is lost, or every error");
    }
    Error::multiple(alloc, inner)
}
