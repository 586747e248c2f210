//! Declarations that read elements.

ghost use Rattle.std.specs.Prelude.{◌≡◌};

use codegen_program::Derive;

/// The declarations that a type may name, by what reads an element as them. To ask takes no memory.
pub trait Readers {
    ghost use Rattle.std.specs.Prelude.{ℕ, Bool};
    ghost use Rattle.codegen_program.specs.declared.program.Derive.{Derive as Derived};

    /// Whether the declaration of the number may be named, and has the derive.
    ghost reads: { Self → Derived → ℕ → Bool };

    /// Whether the declaration of the number, from 0 on, may be named, and has the derive.
    fn read_by(&self, derive: Derive, number: usize) -> bool
        ensures { result ≡ reads self.now derive number };
}
