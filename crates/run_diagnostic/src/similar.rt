//! Names that differ in one letter.

/// Whether the names differ in one letter, capitals aside: one that is another, one that is too many, or two that stand the other
/// way round.
pub(crate) fn is_misspelled(name: &str, meant: &str) -> bool {
    let name = name.as_bytes();
    let meant = meant.as_bytes();
    let front = same_front(name, meant);
    match (name.get(front..), meant.get(front..)) {
        (Some(name), Some(meant)) => differ_first(name, meant),
        _ => false,
    }
}

/// How many bytes are the same at the front.
fn same_front(a: &[u8], b: &[u8]) -> usize {
    let mut count = 0usize;
    for (x, y) in a.iter().zip(b) {
        if !x.eq_ignore_ascii_case(y) {
            break;
        }
        count = count.saturating_add(1);
    }
    count
}

/// Whether names that differ in their first letter are the same behind it.
fn differ_first(name: &[u8], meant: &[u8]) -> bool {
    match (name, meant) {
        ([], [] | [_]) | ([_], []) => true,
        ([a, b, rest @ ..], [c, d, others @ ..])
            if a.eq_ignore_ascii_case(d) && b.eq_ignore_ascii_case(c) => {
            rest.eq_ignore_ascii_case(others)
        }
        ([_, rest @ ..], [_, others @ ..]) if rest.eq_ignore_ascii_case(others) => true,
        ([_, rest @ ..], meant) if rest.eq_ignore_ascii_case(meant) => true,
        (name, [_, others @ ..]) => name.eq_ignore_ascii_case(others),
        _ => false,
    }
}
