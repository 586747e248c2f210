//! What has tokens: the trait.

use base_core::{Items, Mem};
use std::alloc::Global;
use tok_types::{TokenStream, TokenTree};

/// What has tokens.
pub trait ToTokens {
    ghost use Rattle.std.specs.Prelude.{◌≡◌, ◌++◌, List, IfOk, OnOk, OnErr};
    ghost use Rattle.tok_types.specs.declared.tree.TokenTree.{TokenTree};
    ghost use Rattle.print_core.specs.Marks.{contents};
    ghost use Rattle.print_core.specs.Fronts.{IsFront};

    ghost printing: { Self → List TokenTree };

    /// Writes the tokens behind `trees`. Want of memory may leave some of them there. What stood there
    /// stays in front in any case.
    fn print(&self, alloc: Global, trees: &mut Items<TokenTree>) -> Mem<()>
        ensures ok { OnOk result (trees.new ≡ trees.old ++ printing self.now) }
        ensures front { IsFront trees.old trees.new };

    /// Appends the tokens. After want of memory `tokens` is as before.
    final fn to_tokens(&self, alloc: Global, tokens: &mut TokenStream) -> Mem<()>
        ensures ok { OnOk result (contents tokens.new ≡ contents tokens.old ++ printing self.now) }
        ensures err { OnErr result (tokens.new ≡ tokens.old) }
    {
        let mut trees = Items::new(alloc);
        self.print(alloc, &mut trees)?;
        tokens.trees.append(trees)
    }

    /// The tokens alone.
    final fn to_token_stream(&self, alloc: Global) -> Mem<TokenStream>
        ensures { IfOk result (λ stream. contents stream ≡ printing self.now) }
    {
        let mut trees = Items::new(alloc);
        self.print(alloc, &mut trees)?;
        Ok(TokenStream { trees })
    }
}
