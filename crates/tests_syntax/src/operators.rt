//! Which operators bind tighter: a row is an expression with two spaces on each side of the outermost
//! operator, and else one at most.

use crate::node::{part, read};
use node_core::{Expr, Span, Text};
use node_span::Spanned;
use std::alloc::Global;
use tests_checks::Tested;

// From the tightest level to the loosest: each beside the next in both orders.
pub const LEVELS: &str = "-  a.b
!  a()
*  a[b]
&  a?
&mut  a.b(c)
-  -a
-a  *  b
a  *  -b
*a  /  b
a  /  *b
!a  %  b
a  %  !b
&a  *  b
a  *  &b
a?  *  b.c
a * b  +  c
a  +  b * c
a / b  +  c
a  +  b / c
a % b  -  c
a  -  b % c
a + b  <<  c
a  <<  b + c
a - b  >>  c
a  >>  b - c
a << b  &  c
a  &  b << c
a >> b  &  c
a  &  b >> c
a & b  ^  c
a  ^  b & c
a ^ b  |  c
a  |  b ^ c
a | b  ==  c
a  ==  b | c
a | b  !=  c
a  !=  b | c
a | b  <  c
a  <  b | c
a | b  >  c
a  >  b | c
a | b  <=  c
a  <=  b | c
a | b  >=  c
a  >=  b | c
a == b  &&  c
a  &&  b == c
a != b  &&  c
a  &&  b != c
a < b  &&  c
a  &&  b < c
a > b  &&  c
a  &&  b > c
a <= b  &&  c
a  &&  b <= c
a >= b  &&  c
a  &&  b >= c
a && b  ||  c
a  ||  b && c
a || b  ..  c
a  ..  b || c
a || b  ..=  c
a  ..=  b || c
a || b  ..
|a|  b..c
move ||  a..";

// Operators of one level are read to the left; comparisons are not chained.
pub const CHAINS: &str = "a * b  *  c
a * b  /  c
a / b  *  c
a / b  /  c
a % b  *  c
a * b  %  c
a % b  %  c
a + b  +  c
a + b  -  c
a - b  +  c
a - b  -  c
a << b  <<  c
a << b  >>  c
a >> b  <<  c
a >> b  >>  c
a & b  &  c
a ^ b  ^  c
a | b  |  c
a && b  &&  c
a || b  ||  c
a - b - c  -  d
a - -b  -  c
|a|  |b| c || d
(a - b)  -  c
a  -  (b - c)";

// Operators of levels that lie further apart.
pub const FAR: &str = "a * b  ||  c
a  ||  b * c
a + b  ==  c
a  ==  b + c
a & b  ==  c
a  ==  b & c
-a  ..  b
a  ..  -b
a + b * c  -  d
a * b  +  c * d
a  ||  b && c == d | e ^ f & g << h + i * -j
-a * b + c << d & e ^ f | g == h && i  ||  j";

/// Where the sides of the outermost operator stand, as far as it has them.
fn sides(tree: &Expr) -> (Span, Span) {
    let none = Span::CallSite;
    match tree {
        Expr::Binary { left, right, .. } => (left.spanned(), right.spanned()),
        Expr::Range(range) => (range.start.spanned(), range.end.spanned()),
        Expr::Unary { expr, .. } | Expr::Reference { expr, .. } => (none, expr.spanned()),
        Expr::Closure(closure) => (none, closure.body.spanned()),
        _ => (none, none),
    }
}

/// The sides as they are read, with two spaces at what stands between them in the text.
pub fn parted(alloc: Global, text: &str) -> Tested<Text> {
    let (left, right) = sides(&read(alloc, text)?);
    let (left, right) = (part(text, left), part(text, right));
    let between = text.strip_prefix(left).unwrap_or(text);
    let between = between.strip_suffix(right).unwrap_or(between).trim();
    let mut told = Text::from_str(alloc, left)?;
    told.push_str(if left.is_empty() { "" } else { "  " })?;
    told.push_str(between)?;
    told.push_str(if right.is_empty() { "" } else { "  " })?;
    told.push_str(right)?;
    Ok(told)
}
