//! Which types fit their places.

ghost use Rattle.std.specs.Prelude.{◌≡◌, IfOk, is_some};
ghost use Rattle.machine_forms.specs.Defaults.{leaf_default};
ghost use Rattle.machine_forms.specs.Convert as convert;
ghost use Rattle.machine_forms.specs.Machine.{setting_of};
ghost use Rattle.machine_fit.specs.Fits as spec;
ghost use Rattle.machine_forms.specs.Units.{is_item as item_at};

use crate::checker::Checker;
use crate::readers::Earlier;
use base_core::Mem;
use machine_forms::Host;
use machine_places::{OuterPlace, outer_row_among};
use machine_rows::{Leaf, Row, element_among, row_among};
use machine_types::fits_outer;
use node_expr::Type;

impl<H: Host> Checker<'_, H> {
    /// Whether the type of a field fits its place in the declaration of the number `here`, where it may take a list of values.
    pub(crate) fn field_fits(&self, here: usize, reads: bool, many: bool, ty: &Type) -> Mem<bool>
        ensures { IfOk result (λ fits. fits ≡ spec.field_fits (H.says self.now.host.now) self.now.program.now here reads many ty.now) }
    {
        if !many {
            return self.type_fits(here, reads, ty);
        }
        match element_among(&self.program.decls, ty) {
            Some(element) => self.type_fits(here, reads, element),
            None => Ok(false),
        }
    }

    /// Whether the type of one value fits its place in the declaration of the number `here`. Where items are read at it,
    /// declarations that it names must be such as items are read as.
    pub(crate) fn type_fits(&self, here: usize, reads: bool, ty: &Type) -> Mem<bool>
        ensures { IfOk result (λ fits. fits ≡ spec.type_fits (H.says self.now.host.now) self.now.program.now here reads ty.now) }
    {
        let row = self.row(ty)?;
        Ok(self.row_fits(here, reads, &row))
    }

    /// Whether the type of a field fits that takes the part of an element at the place. Where a function converts the part,
    /// each type may stand there too that is read of no items.
    pub(crate) fn part_fits(&self, here: usize, at: OuterPlace, with: bool, ty: &Type) -> Mem<bool>
        ensures { IfOk result (λ fits. fits ≡ spec.part_fits (H.says self.now.host.now) self.now.program.now here at with ty.now) }
    {
        if self.is_taken(here, at, ty)? {
            return Ok(true);
        }
        if !with {
            return Ok(false);
        }
        self.type_fits(here, false, ty)
    }

    /// Whether the place, in the declaration of the number `here`, takes the type.
    fn is_taken(&self, here: usize, at: OuterPlace, ty: &Type) -> Mem<bool>
        ensures { IfOk result (λ is. is ≡ spec.is_taken self.now.program.now here at ty.now) }
    {
        let row = outer_row_among(self.alloc, &self.program.decls, ty)?;
        let earlier = Earlier {
            units: self.program.units.as_slice(),
            here,
        };
        Ok(fits_outer(&row, at, &earlier))
    }

    /// The row that a type is.
    fn row(&self, ty: &Type) -> Mem<Row>
        ensures { IfOk result (λ row. row ≡ spec.row_in self.now.program.now ty.now) }
    {
        row_among(self.alloc, &self.program.decls, ty)
    }

    fn row_fits(&self, here: usize, reads: bool, row: &Row) -> bool
        ensures { result ≡ spec.row_fits (H.says self.now.host.now) self.now.program.now here reads row.now }
    {
        match row {
            Row::Unit | Row::Leaf(_) => true,
            Row::Option(inner) => self.row_fits(here, reads, inner.get()),
            Row::Box(inner) => self.row_fits(here, reads, inner.get()),
            Row::Result(inner) => self.row_fits(here, reads, inner.get()),
            Row::ResultMeta(inner) => self.row_fits(here, reads, inner.get()),
            Row::Override(inner) => self.row_fits(here, reads, inner.get()),
            Row::SpannedValue(inner) => self.row_fits(here, reads, inner.get()),
            Row::WithOriginal(inner) => self.row_fits(here, reads, inner.get()),
            Row::HashMap(_, inner) => self.row_fits(here, reads, inner.get()),
            Row::BTreeMap(_, inner) => self.row_fits(here, reads, inner.get()),
            Row::Vec(_) => false,
            Row::Declared(number) => self.may_name(here, reads, *number),
            Row::Host(ty) => self.host.knows(ty),
        }
    }

    /// Whether a type in the declaration of the number `here` may name the declaration of the other number.
    fn may_name(&self, here: usize, reads: bool, number: usize) -> bool
        ensures { result ≡ spec.may_name (H.says self.now.host.now) self.now.program.now here reads number }
    {
        number < here && (!reads || self.is_item(number))
    }

    /// Whether items are read as the declaration of the number.
    fn is_item(&self, number: usize) -> bool
        ensures { result ≡ item_at self.now.program.now number }
    {
        match self.items.get(number) {
            Some(flag) => *flag,
            None => false,
        }
    }

    /// Whether the type has a default.
    pub(crate) fn has_default(&self, ty: &Type) -> Mem<bool>
        ensures { IfOk result (λ has. has ≡ spec.has_default (H.says self.now.host.now) self.now.program.now ty.now) }
    {
        let row = self.row(ty)?;
        Ok(self.row_has_default(&row))
    }

    fn row_has_default(&self, row: &Row) -> bool
        ensures { result ≡ spec.row_has_default (H.says self.now.host.now) self.now.program.now row.now }
    {
        match row {
            Row::Unit => true,
            Row::Leaf(leaf) => leaf_has_default(*leaf),
            Row::Option(_) => true,
            Row::Box(inner) => self.row_has_default(inner.get()),
            Row::Result(_) | Row::ResultMeta(_) | Row::WithOriginal(_) => false,
            Row::Override(_) => true,
            Row::SpannedValue(inner) => self.row_has_default(inner.get()),
            Row::HashMap(_, _) | Row::BTreeMap(_, _) => true,
            Row::Vec(_) => true,
            Row::Declared(number) => self.declared_has_default(*number),
            Row::Host(ty) => self.host_has_default(ty),
        }
    }

    /// Whether the declaration of the number has a default.
    fn declared_has_default(&self, number: usize) -> bool
        ensures { result ≡ is_some (convert.declared_default (setting_of (H.says self.now.host.now) self.now.program.now) number) }
    {
        match self.defaults.get(number) {
            Some(flag) => *flag,
            None => false,
        }
    }

    /// Whether the host says that the type has a default.
    fn host_has_default(&self, ty: &Type) -> bool
        ensures { result ≡ is_some (convert.default_said (setting_of (H.says self.now.host.now) self.now.program.now) ty.now) }
    {
        self.host.has_default(&self.program.decls, ty)
    }
}

fn leaf_has_default(leaf: Leaf) -> bool
    ensures { result ≡ is_some (leaf_default leaf) }
{
    match leaf {
        Leaf::Bool
        | Leaf::Char
        | Leaf::String
        | Leaf::PathBuf
        | Leaf::Integer(_)
        | Leaf::Flag
        | Leaf::Vec(_)
        | Leaf::HashSet(_)
        | Leaf::PathList
        | Leaf::Punctuated(_)
        | Leaf::Ignored => true,
        _ => false,
    }
}
