//! The texts that are parsed.

use std::alloc::Global;
use tok_core::Mem;

/// What a text is read as.
#[derive(Clone, Copy)]
pub(crate) enum List {
    /// Nothing but tokens.
    Tokens,
    Exprs,
    Paths,
    Items,
    /// Nested items of an attribute.
    Nested,
}

/// A text of the workload, of about so many bytes; an empty one where there is no such workload.
pub(crate) fn text_of(alloc: Global, workload: &str, size: usize) -> Mem<(List, String)> {
    let text = items(alloc, workload, size)?;
    if !text.is_empty() {
        return Ok((List::Items, text));
    }
    let text = paths(alloc, workload, size)?;
    if !text.is_empty() {
        return Ok((List::Paths, text));
    }
    let text = nested_items(alloc, workload, size)?;
    if !text.is_empty() {
        return Ok((List::Nested, text));
    }
    let text = exprs(alloc, workload, size)?;
    Ok((List::Exprs, text))
}

/// Lists of items.
fn items(alloc: Global, workload: &str, size: usize) -> Mem<String> {
    match workload {
        "structs" => filled(
            alloc,
            "",
            "struct S<T: A> where T: B { a: T, b: u8 } ",
            "",
            size,
        ),
        "enums" => filled(
            alloc,
            "",
            "pub enum E { A, B(C) = 1, D { e: F } } ",
            "",
            size,
        ),
        "attributes" => filled(alloc, "", "#[a(b = 1)] ", "struct S;", size),
        "fields" => filled(alloc, "struct S {", "a: A, ", "}", size),
        "late_item" => filled(alloc, "", "struct S; ", "struct", size),
        _ => Ok(String::new(alloc)),
    }
}

/// Lists of paths.
fn paths(alloc: Global, workload: &str, size: usize) -> Mem<String> {
    match workload {
        "paths" => filled(alloc, "", "a::b::C, ", "", size),
        "types" => filled(alloc, "", "A<&'a [B; 8], fn() -> C, dyn D>, ", "", size),
        "segments" => filled(alloc, "a", "::a", "", size),
        "arguments" => filled(alloc, "A<", "B, ", ">", size),
        "bounds" => filled(alloc, "A<dyn B", " + C", ">", size),
        "chain_angles" => filled(alloc, "", "A<", "A", size),
        "deep_angles" => deep(alloc, 255, ("A<", "A", ">"), size),
        _ => Ok(String::new(alloc)),
    }
}

/// Lists of nested items.
fn nested_items(alloc: Global, workload: &str, size: usize) -> Mem<String> {
    match workload {
        "nested_items" => filled(alloc, "", "a, b(c), d = -1, e = f + g, ", "", size),
        "bad_values" => filled(alloc, "", "a = b c, ", "", size),
        "open_values" => filled(alloc, "", "a = b::<c, ", "", size),
        "late_attribute" => filled(alloc, "", "a = b, ", "c = #[d]", size),
        _ => Ok(String::new(alloc)),
    }
}

/// Lists of expressions.
fn exprs(alloc: Global, workload: &str, size: usize) -> Mem<String> {
    match workload {
        "names" => filled(alloc, "", "a, ", "", size),
        "literals" => filled(alloc, "", "1_000u8, 1.5e10, 'a', \"a\", true, ", "", size),
        "operators" => filled(alloc, "", "a + b * c == -d && e || !f, ", "", size),
        "postfixes" => filled(alloc, "", "a.b(c, d)?[0].e, ", "", size),
        "closures" => filled(alloc, "", "|a, b: &B<C>| -> D { a; b }, ", "", size),
        "groups" => filled(alloc, "", "[a, (b, c), [d; 2], {e; f}], ", "", size),
        _ => exprs_in_one(alloc, workload, size),
    }
}

/// Lists with a fault at the end, and one expression with all of the text.
fn exprs_in_one(alloc: Global, workload: &str, size: usize) -> Mem<String> {
    match workload {
        "late_fault" => filled(alloc, "", "a, ", "a a", size),
        "array" => filled(alloc, "[", "a, ", "]", size),
        "block" => filled(alloc, "{", "a; ", "}", size),
        "call" => filled(alloc, "a(", "b, ", ")", size),
        "parameters" => filled(alloc, "|", "a, ", "| b", size),
        _ => chains(alloc, workload, size),
    }
}

/// Chains that are deeper than a tree may be.
fn chains(alloc: Global, workload: &str, size: usize) -> Mem<String> {
    match workload {
        "chain_ampersands" => filled(alloc, "", "&", "a", size),
        "chain_minuses" => filled(alloc, "", "-", "a", size),
        "chain_nots" => filled(alloc, "", "!", "a", size),
        "chain_closures" => filled(alloc, "", "||", "a", size),
        "chain_fields" => filled(alloc, "a", ".a", "", size),
        "chain_questions" => filled(alloc, "a", "?", "", size),
        "chain_calls" => filled(alloc, "a", "()", "", size),
        "chain_indexes" => filled(alloc, "a", "[0]", "", size),
        "chain_sums" => filled(alloc, "a", "+a", "", size),
        "chain_parentheses" => filled(alloc, "", "(", "a", size),
        _ => deep_exprs(alloc, workload, size),
    }
}

/// Lists of expressions as deep as they may be.
fn deep_exprs(alloc: Global, workload: &str, size: usize) -> Mem<String> {
    match workload {
        "deep_parentheses" => deep(alloc, 128, ("(", "a", ")"), size),
        "deep_minuses" => deep(alloc, 255, ("-", "a", ""), size),
        "deep_closures" => deep(alloc, 255, ("||", "a", ""), size),
        "deep_fields" => deep(alloc, 255, ("", "a", ".a"), size),
        "deep_calls" => deep(alloc, 255, ("", "a", "()"), size),
        "deep_sums" => deep(alloc, 255, ("", "a", "+a"), size),
        "deep_types" => deep(alloc, 127, ("|a: [A; ", "1", "]| 1"), size),
        _ => Ok(String::new(alloc)),
    }
}

/// The unit, again and again, between the head and the tail.
pub(crate) fn filled(
    alloc: Global,
    head: &str,
    unit: &str,
    tail: &str,
    size: usize,
) -> Mem<String> {
    let mut text = String::new(alloc);
    text.push_str(head)?;
    for _ in 0..size.saturating_sub(head.len()).saturating_sub(tail.len()) / unit.len().max(1) {
        text.push_str(unit)?;
    }
    text.push_str(tail)?;
    Ok(text)
}

/// An item again and again: so many of what stands before its middle, the middle, and as many of what
/// stands behind it.
fn deep(alloc: Global, levels: usize, form: (&str, &str, &str), size: usize) -> Mem<String> {
    let item = nested(alloc, levels, form)?;
    filled(alloc, "", item.as_str(), "", size)
}

fn nested(alloc: Global, levels: usize, form: (&str, &str, &str)) -> Mem<String> {
    let mut text = String::new(alloc);
    for _ in 0..levels {
        text.push_str(form.0)?;
    }
    text.push_str(form.1)?;
    for _ in 0..levels {
        text.push_str(form.2)?;
    }
    text.push_str(", ")?;
    Ok(text)
}
