//! Declarations that are looked up by their names.

ghost use Rattle.std.specs.Prelude.{◌≡◌, IfOk, length, position, slice_get};
ghost use Rattle.std.specs.Option.{option_copied};
ghost use Rattle.std.specs.Str.{bytes_eq};
ghost use Rattle.codegen_program.specs.Named.{decl_texts};

use base_core::{Items, Mem, TryClone};
use base_index::{NameIndex, NameOf, Tally};
use node_core::DeriveInput;
use std::alloc::Global;
use std::marker::Model;

/// The name of a declaration, without `r#`.
struct DeclName {}

impl NameOf<DeriveInput> for DeclName {
    ghost name_of = { λ decl. decl.ident.text };

    fn name(decl: &DeriveInput) -> &str {
        decl.ident.text.as_str()
    }
}

/// Declarations in their order, with the index of their names. A contract sees the list.
///
/// Each type that a declaration names is looked for among them: without the index that takes the count of types times the
/// count of declarations.
pub struct Decls {
    decls: Items<DeriveInput>,
    index: NameIndex,
}

impl Model for Decls {
    ghost use Rattle.std.specs.Coded.{coded_list};
    ghost use Rattle.std.specs.Prelude.{List};
    ghost use Rattle.node_core.specs.contracts.derive.DeriveInput as contents;
    ghost use Rattle.node_core.specs.declared.derive.DeriveInput.{DeriveInput};
    ghost use Rattle.base_index.specs.Index.{IsIndex};
    ghost use Rattle.codegen_program.specs.Named.{decl_texts};

    ghost Value = { List DeriveInput };

    ghost coded = { coded_list contents.the_row.coded };

    ghost view = { λ it. it.decls };

    ghost invariant = { λ it. IsIndex it.index (decl_texts it.decls) };
}

impl Drop for Decls {
    fn drop(self) {
        let Self {
            decls: _decls,
            index: _index,
        } = self;
    }
}

impl TryClone for Decls {
    fn try_clone(&self, alloc: Global) -> Mem<Decls> {
        let decls = self.decls.try_clone(alloc)?;
        let index = self.index.try_clone(alloc)?;
        Ok(Decls { decls, index })
    }
}

impl Decls {
    /// The declarations with their index.
    pub fn new(alloc: Global, decls: Items<DeriveInput>) -> Mem<Decls>
        ensures { IfOk result (λ it. it ≡ decls) }
    {
        let index = NameIndex::new::<DeriveInput, DeclName>(alloc, decls.as_slice())?;
        Ok(Decls { decls, index })
    }

    pub fn as_slice(&self) -> &[DeriveInput]
        ensures { result.now ≡ self.now }
    {
        self.decls.as_slice()
    }

    pub fn len(&self) -> usize
        ensures { result ≡ length self.now }
    {
        self.decls.len()
    }

    /// The declaration of the number, from 0 on.
    pub fn get(&self, number: usize) -> Option<&DeriveInput>
        ensures { option_copied result ≡ slice_get self.now number }
    {
        self.decls.get(number)
    }

    /// The number of the first declaration of the name, in which `r#` does not count. To look takes no memory.
    pub fn find(&self, name: &str) -> Option<usize>
        ensures { result ≡ position (λ other. bytes_eq other name.now) (decl_texts self.now) }
    {
        let mut tally = Tally::new();
        self.index
            .find::<DeriveInput, DeclName>(self.decls.as_slice(), name, &mut tally)
    }
}
