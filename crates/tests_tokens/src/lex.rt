//! Texts are lexed, or refused at their place, and tokens are printed: a row is `kind | text => answer`.

use crate::told::Tested;
use std::alloc::{AllocError, Global};
use std::test::Fail;
use tok_core::*;

// `lex`: the tokens, or the fault and its place. A joint mark has `_` behind; an identifier stands in `i`, a raw
// one in `r`, a lifetime in `l` and a literal in `t`. `print`: the text of the tokens, which is lexed as the same
// tokens. `quote`: the text as a string. `comment`: the one place of all its tokens.
pub const ROWS: &str = r###"lex |  => 
lex | r#type => r(type)
lex | 'a => l(a)
lex | 'a' => t('a')
lex | 1..2 => t(1) ._ . t(2)
lex | 1f32 => t(1f32)
lex | 1e5 => t(1e5)
lex | ///x => # [ i(doc) = t("x") ]
lex | r#self => i(r) # i(self)
lex | r#1 => i(r) # t(1)
lex | r## => i(r) #_ #
lex | br#x => i(br) # i(x)
lex | b'a => i(b) l(a)
lex | 'r#a => l(r#a)
lex | 'a"x" => l(a) t("x")
lex | 1u8"x" => t(1u8) t("x")
lex | 'a'b => l(a) l(b)
lex | "a‹D›b" => t("a‹D›b")
lex | r"a‹D›b" => t(r"a‹D›b")
lex | =///x => =_ # [ i(doc) = t("x") ]
lex | = //x => =
lex | 1e_-5 => t(1e_) - t(5)
lex | ////x => 
lex | ///x‹D›‹A›y => # [ i(doc) = t("x") ] i(y)
lex | ///x‹D› => # [ i(doc) = t("x\r") ]
lex | /// "\‹9› => # [ i(doc) = t(" \"\\\t") ]
lex | //!x‹A›/**x*/ => 
lex | a/* /* */ */b => i(a) i(b)
lex | / => /
lex | + += +/**/= => + +_ = + =
lex | _ _a é => i(_) i(_a) i(é)
lex | '_ 'é => l(_) l(é)
lex | 'é' '"' '\'' '\x7F' '\u{1_0}' => t('é') t('"') t('\'') t('\x7F') t('\u{1_0}')
lex | b'x' b'\xFF' b'\'' => t(b'x') t(b'\xFF') t(b'\'')
lex | "" "\n\r\t\\\0\'\"" => t("") t("\n\r\t\\\0\'\"")
lex | "a\‹A› ‹9›‹D›‹A› b" => t("a\‹A› ‹9›‹D›‹A› b")
lex | b"a\xFF" => t(b"a\xFF")
lex | r"\" r#"""# r##""#"## => t(r"\") t(r#"""#) t(r##""#"##)
lex | br"\" br#"""# => t(br"\") t(br#"""#)
lex | 0 00 1_000 7usize 7é => t(0) t(00) t(1_000) t(7usize) t(7é)
lex | 0x_1F 0o17u8 0b_1 0xe+1 => t(0x_1F) t(0o17u8) t(0b_1) t(0xe) + t(1)
lex | 340282366920938463463374607431768211455 => t(340282366920938463463374607431768211455)
lex | 1. 1.5 1.5_ 1._5 => t(1.) t(1.5) t(1.5_) t(1) . i(_5)
lex | 1.a 1.é => t(1) . i(a) t(1) . i(é)
lex | 1e+5 1E-5 1e_5 1.5e5f64 => t(1e+5) t(1E-5) t(1e_5) t(1.5e5f64)
lex | 1e 1e+ 1.e5 => t(1e) t(1e) + t(1) . i(e5)
lex | 1f64 1.f => t(1f64) t(1) . i(f)
lex | (a [b] {}) => ( i(a) [ i(b) ] { } )
lex | #[a = "b"],::x‹D›‹A›{} => # [ i(a) = t("b") ] ,_ :_ : i(x) { }
lex | 'a 'b' => l(a) t('b')
lex | a‹85›b‹200E›c‹2028›d‹B› => i(a) i(b) i(c) i(d)
lex | r => i(r)
lex | b => i(b)
lex | br => i(br)
lex | ~ ? $ @ % ^ ! & | < > . , ; : # * - => ~ ? $ @ % ^ ! & | < > . , ; : # * -
lex | -> => -_ >
lex | &&a => &_ & i(a)
lex | a.0.1 => i(a) . t(0.1)
lex | '\u{10FFFF}' => t('\u{10FFFF}')
lex | fn_ r#fn => i(fn_) r(fn)
lex | "\u{110000}" => Syntax 0
lex | r#"abc => Syntax 2
lex | b" => Syntax 0
lex | br" => Syntax 0
lex | r" => Syntax 0
lex | ab"x" => Syntax 0
lex | r#ab"x" => Syntax 0
lex | 'ab' => Syntax 3
lex | "a"b => Syntax 0
lex | ''' => Syntax 0
lex | '‹A›' => Syntax 0
lex | '‹D›' => Syntax 0
lex | '‹9›' => Syntax 0
lex | b'‹A›' => Syntax 1
lex | ‹A0› => Syntax 0
lex | a ‹3000› => Syntax 2
lex | ‹FEFF›a => Syntax 0
lex | ‹0› => Syntax 0
lex | a /* => Syntax 2
lex | /*/ => Syntax 0
lex | /* /* */ => Syntax 0
lex | " => Syntax 0
lex | "a\ => Syntax 0
lex | "\q" => Syntax 0
lex | "\x80" => Syntax 0
lex | "\u{}" => Syntax 0
lex | "\u{_1}" => Syntax 0
lex | "\u{1234567}" => Syntax 0
lex | "\u{D800}" => Syntax 0
lex | b"\u{1}" => Syntax 0
lex | b"é" => Syntax 0
lex | br"é" => Syntax 0
lex | 0b2 => Syntax 0
lex | 0x => Syntax 0
lex | 340282366920938463463374607431768211456 => Syntax 0
lex | 1· => Syntax 0
lex | 1e5‹301› => Syntax 0
lex | [a => Syntax 2
lex | (] => Syntax 1
lex | a) => Syntax 1
lex | é(} => Syntax 3
lex | ‹128*[› => Syntax 128
lex | ‹129*[› => TooDeep 128
lex | ‹128*(› => Syntax 128
lex | ‹129*(› => TooDeep 128
lex | ‹128*{› => Syntax 128
lex | ‹129*{› => TooDeep 128
lex | ‹43*([{› => TooDeep 128
print |  => 
print | a+=b => a += b
print | f(a,b) => f (a , b)
print | #[x] => # [x]
print | &'a r#type => & 'a r#type
print | 'r#a{ }( [ ] ) => 'r#a {} ([])
print | ///x"‹A›1. => # [doc = "x\""] 1.
print | a::b /**/ -1 => a :: b - 1
quote | \"‹A›‹D›‹9›‹0›é' => "\\\"\n\r\t\0é'"
comment | ///x => 0..4"###;

#[cycle(shown)]
fn push_token(text: &mut String, tree: &TokenTree) -> Mem<()> {
    match tree {
        TokenTree::Ident(it) => {
            text.push_str(if it.raw { "r(" } else { "i(" })?;
            text.push_str(it.text.as_str())?;
            text.push(')')
        }
        TokenTree::Lifetime(it) => {
            text.push_str(if it.ident.raw { "l(r#" } else { "l(" })?;
            text.push_str(it.ident.text.as_str())?;
            text.push(')')
        }
        TokenTree::Punct(it) => {
            text.push(it.ch)?;
            text.push_str(if it.joint { "_" } else { "" })
        }
        TokenTree::Literal(it) => {
            text.push_str("t(")?;
            text.push_str(it.text.as_str())?;
            text.push(')')
        }
        TokenTree::Group(it) => {
            let it = it.get();
            text.push_str(tok_scan::opening(it.delimiter))?;
            text.push(' ')?;
            push_tokens(text, it.stream.trees.as_slice())?;
            text.push_str(tok_scan::closing(it.delimiter))
        }
    }
}

#[cycle(shown)]
fn push_tokens(text: &mut String, trees: &[TokenTree]) -> Mem<()> {
    for tree in trees {
        push_token(text, tree)?;
        text.push(' ')?;
    }
    Ok(())
}

/// The tokens of a short text.
pub fn tokens(alloc: Global, text: &str) -> Result<TokenStream, LexError> {
    if text.len() > 1000 {
        return Err(LexError::NoMemory);
    }
    lex(alloc, 0, text)
}

fn shown(alloc: Global, tokens: &TokenStream) -> Mem<String> {
    let mut shown = String::new(alloc);
    push_tokens(&mut shown, tokens.trees.as_slice())?;
    format!(in alloc; "{}", shown.as_str().trim_end())
}

/// The tokens of the text, or the fault and its place.
pub fn lexed(alloc: Global, text: &str) -> Mem<String> {
    match tokens(alloc, text) {
        Ok(tokens) => shown(alloc, &tokens),
        Err(LexError::TooDeep { at }) => format!(in alloc; "TooDeep {at}"),
        Err(LexError::Syntax { at }) => format!(in alloc; "Syntax {at}"),
        Err(LexError::NoMemory) => Err(AllocError),
    }
}

/// The text of the tokens, which is lexed as the same tokens.
pub fn printed(alloc: Global, tokens: &TokenStream) -> Tested<String> {
    let printed = to_text(alloc, tokens)?;
    if printed.len() > 1000 || read_again(alloc, 1, tokens)? != *tokens {
        return Err(Fail::new("the printing has other tokens"));
    }
    Ok(printed.into_string()?)
}

/// The place that the two tokens of a comment, and all inside, have in common.
fn common(tokens: &TokenStream) -> Option<Span> {
    let [TokenTree::Punct(mark), TokenTree::Group(group)] = tokens.trees.as_slice() else {
        return None;
    };
    let group = group.get();
    match group.stream.trees.as_slice() {
        [
            TokenTree::Ident(name),
            TokenTree::Punct(equal),
            TokenTree::Literal(text),
        ] if mark.span == group.span
            && name.span == group.span
            && equal.span == group.span
            && text.span == group.span => { Some(group.span) }
        _ => None,
    }
}

/// The place that a comment has in common with each token that it stands for.
pub fn comment(alloc: Global, tokens: &TokenStream) -> Mem<String> {
    match common(tokens) {
        Some(Span::At { start, end, .. }) => format!(in alloc; "{start}..{end}"),
        _ => format!(in alloc; "other tokens, or more than one place"),
    }
}
