//! What fits, in laws. These functions do nothing: their clauses are the laws.

ghost use Rattle.std.specs.Prelude.{◌≡◌, false, true, List, Some, None, ◌≤◌, ℕ, All};
ghost use Rattle.base_core.specs.declared.text.Text.{Text};
ghost use Rattle.node_expr.specs.declared.ty.«Type».{«Type» as Ty};
ghost use Rattle.node_core.specs.declared.derive.DeriveInput.{DeriveInput};
ghost use Rattle.machine_rows.specs.Rows.{element_of, row_of};
ghost use Rattle.machine_rows.specs.declared.leaf.Integer.TheVariants as integer;
ghost use Rattle.machine_rows.specs.declared.leaf.Leaf.TheVariants as leaf;
ghost use Rattle.machine_rows.specs.declared.row.Row.{Row};
ghost use Rattle.machine_rows.specs.declared.row.Row.TheVariants as row;
ghost use Rattle.machine_value.specs.declared.value.Value.{Value};
ghost use Rattle.machine_value.specs.declared.value.Value.TheVariants as value;
ghost use Rattle.machine_host.specs.Decls.{Fits, FitsAmong, decl_names};
ghost use Rattle.machine_host.specs.Fits.{FitsRow, type_name};

/// A text fits `String`; 256 and a zero with a minus fit no `u8`; none, and some value that fits `T`, fit
/// `Option<T>`; a list of values that fit `T` fits `Vec<T>`; a value of the host's type of the name fits it.
pub fn what_fits_a_type()
    ensures string { (decls : List DeriveInput) (ty : Ty) (text : Text) → row_of (decl_names decls) ty ≡ row.Leaf leaf.String → Fits decls ty (value.Text text) }
    ensures number { (decls : List DeriveInput) (ty : Ty) (digits : ℕ) → row_of (decl_names decls) ty ≡ row.Leaf (leaf.Integer integer.U8) → Fits decls ty (value.Int false digits) → digits ≤ 255 }
    ensures minus { (decls : List DeriveInput) (ty : Ty) → row_of (decl_names decls) ty ≡ row.Leaf (leaf.Integer integer.I8) → Fits decls ty (value.Int true 0) → ⊥ }
    ensures none { (decls : List DeriveInput) (ty : Ty) (inner : Row) → row_of (decl_names decls) ty ≡ row.Option inner → Fits decls ty (value.Opt None) }
    ensures some { (decls : List DeriveInput) (ty : Ty) (inner : Row) (it : Value) → row_of (decl_names decls) ty ≡ row.Option inner → FitsRow (FitsAmong decls) inner it → Fits decls ty (value.Opt (Some it)) }
    ensures list { (decls : List DeriveInput) (ty element : Ty) (values : List Value) → element_of (decl_names decls) ty ≡ Some element → All (FitsRow (FitsAmong decls) (row_of (decl_names decls) element)) values → Fits decls ty (value.List values) }
    ensures host { (decls : List DeriveInput) (ty : Ty) (text : Text) → row_of (decl_names decls) ty ≡ row.Host ty → Fits decls ty (value.Host (type_name ty) text) }
{}
