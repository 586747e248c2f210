//! Declarations by their names, as types are looked up among them.

ghost use Rattle.std.specs.Prelude.{◌≡◌, position};
ghost use Rattle.machine_rows.specs.Paths.{same_ident};

use codegen_program::Decls;
use tok_types::Ident;

/// Declarations in their order, which are asked for one by its name. To ask takes no memory.
pub trait Names {
    ghost use Rattle.std.specs.Prelude.{List};
    ghost use Rattle.tok_types.specs.declared.ident.Ident.{Ident as Name};

    /// The names in their order.
    ghost idents: { Self → List Name };

    /// The number of the first declaration of the name, from 0 on. `r#` is no part of a name.
    fn place_of(&self, name: &Ident) -> Option<usize>
        ensures { result ≡ position (λ other. same_ident other name.now) (idents self.now) };
}

impl Names for &[Ident] {
    ghost idents = { λ it. it.now };

    fn place_of(&self, name: &Ident) -> Option<usize> {
        self.iter().position(|other| same_ident(other, name))
    }
}

impl Names for Decls {
    ghost use Rattle.std.specs.Prelude.{map};

    ghost idents = { λ it. map (λ decl. decl.ident) it };

    fn place_of(&self, name: &Ident) -> Option<usize> {
        self.find(name.text.as_str())
    }
}

fn same_ident(a: &Ident, b: &Ident) -> bool
    ensures { result ≡ same_ident a.now b.now }
{
    a.text == b.text
}
