//! The trees of a text that is read in part.
ghost use Rattle.std.specs.Prelude.{◌≡◌, ◌++◌, [], ◌∷◌, ◌<◌, Some, true, false, drop, length, IfOk, IfErr, OnOk};
ghost use Rattle.tok_core.specs.Endings.{is_top, open_after};
ghost use Rattle.tok_types.specs.Delimiter.{same_delimiter};
ghost use Rattle.tok_core.specs.Flat as flat;
ghost use Rattle.tok_core.specs.Flat.{flat_stream, flat_tree};
ghost use Rattle.tok_core.specs.Spells.{doc_tokens, token_of};

use crate::error::LexError;
use crate::token;
use base_core::{Items, Mem};
use std::alloc::Global;
use tok_scan::Kind;
use tok_types::{Delimiter, Span, TokenStream, TokenTree};

/// How many groups may be open at once.
const MAX_OPEN: usize = 128;

/// An open group: where it starts, and the trees before it.
struct Frame {
    delimiter: Delimiter,
    start: u32,
    trees: Items<TokenTree>,
}

/// The trees so far: of each open group, the outermost first, those before it, and those after the
/// last delimiter.
pub(crate) struct Nest {
    frames: Items<Frame>,
    trees: Items<TokenTree>,
}

impl Frame {
    fn into_parts(self) -> (Delimiter, u32, Items<TokenTree>)
        ensures { result ≡ (self.delimiter, self.start, self.trees) }
    {
        let Frame {
            delimiter,
            start,
            trees,
        } = self;
        (delimiter, start, trees)
    }
}

impl Drop for Frame {
    fn drop(self) {
        let Self {
            delimiter: _,
            start: _,
            trees: _trees,
        } = self;
    }
}

impl Drop for Nest {
    fn drop(self) {
        let Self {
            frames: _frames,
            trees: _trees,
        } = self;
    }
}

fn same_delimiter(a: Delimiter, b: Delimiter) -> bool
    ensures { result ≡ same_delimiter a b }
{
    a == b
}

impl Nest {
    ghost use Rattle.tok_core.specs.Nests.{flat_nest, open_in, AreBytes, Cause, IsFull, IsAmiss};

    pub(crate) fn new(alloc: Global) -> Nest
        ensures flat { (source : _) → flat_nest source result ≡ [] }
        ensures none_open { open_in result ≡ [] }
    {
        Nest {
            frames: Items::new(alloc),
            trees: Items::new(alloc),
        }
    }

    fn push(&mut self, tree: TokenTree) -> Mem<()>
        ensures flat { OnOk result ((source : _) → flat_nest source self.new ≡ flat_nest source self.old ++ flat_tree tree) }
        ensures same_open { OnOk result (open_in self.new ≡ open_in self.old) }
    {
        self.trees.push(tree)?;
        Ok(())
    }

    /// Adds the attribute for which the documentation comment stands that is written so.
    fn push_doc(&mut self, alloc: Global, text: &[char], span: Span) -> Mem<()>
        ensures flat { OnOk result ((source : _) → flat_nest source self.new
            ≡ flat_nest source self.old ++ doc_tokens (drop 3 text.now) span) }
        ensures same_open { OnOk result (open_in self.new ≡ open_in self.old) }
    {
        self.push(token::mark('#', false, span))?;
        self.push(token::doc(alloc, text, span)?)?;
        Ok(())
    }

    /// Starts a group at `start`.
    fn open(&mut self, alloc: Global, delimiter: Delimiter, start: u32) -> Mem<()>
        ensures flat { OnOk result ((source : _) → flat_nest source self.new
            ≡ flat_nest source self.old ++ flat.opening delimiter (Some (source, start)) ∷ []) }
        ensures one_more { OnOk result (open_in self.new ≡ delimiter ∷ open_in self.old) }
    {
        let trees = std::mem::replace(&mut self.trees, Items::new(alloc));
        self.frames.push(Frame {
            delimiter,
            start,
            trees,
        })?;
        Ok(())
    }

    /// Ends the innermost group, by a delimiter that stands from `start` to `end`.
    fn close(
        &mut self,
        alloc: Global,
        source: u32,
        delimiter: Delimiter,
        start: u32,
        end: u32,
    ) -> Result<(), LexError>
        ensures flat { OnOk result (flat_nest source self.new
            ≡ flat_nest source self.old ++ flat.closing delimiter (Some (source, end)) ∷ []) }
        ensures was_top { OnOk result (is_top delimiter (open_in self.old) ≡ true) }
        ensures one_less { OnOk result (open_in self.new ≡ drop 1 (open_in self.old)) }
        ensures err { IfErr result (λ e. Cause e start ⊥ (is_top delimiter (open_in self.old) ≡ false)) }
    {
        let Some(frame) = self.frames.pop() else {
            return Err(LexError::Syntax { at: start });
        };
        if !same_delimiter(delimiter, frame.delimiter) {
            return Err(LexError::Syntax { at: start });
        }
        let (opened, first, outer) = frame.into_parts();
        let span = Span::At {
            source,
            start: first,
            end,
        };
        let trees = std::mem::replace(&mut self.trees, outer);
        let group = token::group(alloc, opened, trees, span)?;
        self.trees.push(group)?;
        Ok(())
    }

    fn depth(&self) -> usize
        ensures { result ≡ length (open_in self.now) }
    {
        self.frames.len()
    }

    /// The trees, where no group is open at the text's end `at`.
    pub(crate) fn finish(self, at: u32) -> Result<TokenStream, LexError>
        ensures flat { IfOk result (λ s. (source : _) → flat_stream s ≡ flat_nest source self) }
        ensures none_open { IfOk result (λ s. open_in self ≡ []) }
        ensures err { IfErr result (λ e. (e ≡ LexError.Syntax at) × (0 < length (open_in self))) }
    {
        let Nest { frames, trees } = self;
        if frames.is_empty() {
            Ok(TokenStream { trees })
        } else {
            Err(LexError::Syntax { at })
        }
    }

    /// Adds the tokens of the piece of which `text` is kept, and that stands from `start` to `end`; `bytes` are
    /// those of `text`, unless it documents.
    pub(crate) fn step(
        &mut self,
        alloc: Global,
        source: u32,
        kind: Kind,
        text: &[char],
        bytes: &str,
        start: u32,
        end: u32,
    ) -> Result<(), LexError>
        requires { AreBytes kind bytes.now text.now }
        ensures flat { OnOk result (flat_nest source self.new
            ≡ flat_nest source self.old ++ token_of source kind text.now start end) }
        ensures matched { OnOk result (open_after (token_of source kind text.now start end) (open_in self.old)
            ≡ Some (open_in self.new)) }
        ensures err { IfErr result (λ e. Cause e start (IsFull kind (open_in self.old)) (IsAmiss kind (open_in self.old))) }
    {
        let span = Span::At { source, start, end };
        match kind {
            Kind::White | Kind::Comment => {}
            Kind::Doc => {
                if self.depth() >= MAX_OPEN {
                    return Err(LexError::TooDeep { at: start });
                }
                self.push_doc(alloc, text, span)?;
            }
            Kind::Ident | Kind::RawIdent => self.push(token::ident(alloc, text, bytes, span)?)?,
            Kind::Lifetime => self.push(token::lifetime(alloc, text, span)?)?,
            Kind::Mark { joint } => self.push(token::punct(text, joint, span))?,
            Kind::Literal => self.push(token::literal(alloc, bytes, span)?)?,
            Kind::Open(delimiter) => {
                if self.depth() >= MAX_OPEN {
                    return Err(LexError::TooDeep { at: start });
                }
                self.open(alloc, delimiter, start)?;
            }
            Kind::Close(delimiter) => self.close(alloc, source, delimiter, start, end)?,
        }
        Ok(())
    }
}
