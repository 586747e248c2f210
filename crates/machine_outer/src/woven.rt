//! The members of what is built, with the parts where their fields are declared.

ghost use Rattle.std.specs.Prelude.{◌≡◌, ◌++◌, ◌∷◌, IfOk, List, None, OnOk, Option, reverse};
ghost use Rattle.base_core.specs.declared.text.Text.{Text as Name};
ghost use Rattle.machine_outer.specs.Seen.{part_in};
ghost use Rattle.machine_outer.specs.Weaving.{Member, still_woven};
ghost use Rattle.machine_steps.specs.Building as spec;
ghost use Rattle.machine_steps.specs.Decls as decls;
ghost use Rattle.machine_value.specs.declared.value.Value.{Value as Datum};
ghost use Rattle.node_core.specs.declared.data.Field.{Field as Declared};

use crate::parts::Parts;
use base_core::{Items, Mem, Text};
use machine_value::Value;
use node_core::Field;
use std::alloc::Global;

impl Parts<'_> {
    /// The members in their order, and each part where its field is declared.
    pub fn woven(
        self,
        alloc: Global,
        fields: &[Field],
        members: Items<(Text, Value)>,
    ) -> Mem<Items<(Text, Value)>>
        ensures { IfOk result (λ it. it ≡ spec.woven (part_in self.entry) fields.now members) }
    {
        let mut weaving = Weaving::new(alloc, members);
        for field in fields {
            weaving.weave(alloc, self, field)?;
        }
        weaving.into_members()
    }
}

/// Members among which parts are put.
struct Weaving {
    /// Those that stand where they belong.
    done: Items<(Text, Value)>,
    /// The members that are left, the last first.
    left: Items<(Text, Value)>,
}

impl Weaving {
    /// Nothing stands yet.
    fn new(alloc: Global, members: Items<(Text, Value)>) -> Weaving
        ensures { (part : Name → Option Datum) (fields : List Declared) → still_woven result part fields ≡ spec.woven part fields members }
    {
        let mut left = members;
        left.reverse();
        Weaving {
            done: Items::new(alloc),
            left,
        }
    }

    /// Puts what belongs to the field behind what stands: the part that it takes, or the next member.
    fn weave(&mut self, alloc: Global, parts: Parts<'_>, field: &Field) -> Mem<()>
        ensures { OnOk result ((fields : List Declared) → still_woven self.new (part_in parts.entry) fields
            ≡ still_woven self.old (part_in parts.entry) (field.now ∷ fields)) }
    {
        let name = member_name(alloc, field)?;
        match parts.named(alloc, &name)? {
            Some(part) => self.done.push((name, part)),
            None => self.next(),
        }
    }

    /// Puts the next member behind what stands, where one is left.
    fn next(&mut self) -> Mem<()>
        ensures { OnOk result ((name : Name) (others : List Member → List Member) → self.new.done ++ others (reverse self.new.left)
            ≡ self.old.done ++ spec.woven_at name None (reverse self.old.left) others) }
    {
        match self.left.pop() {
            Some(member) => self.done.push(member),
            None => Ok(()),
        }
    }

    /// What stands, and the members that are left behind it.
    fn into_members(self) -> Mem<Items<(Text, Value)>>
        ensures { IfOk result (λ it. it ≡ self.done ++ reverse self.left) }
    {
        let Weaving { mut done, mut left } = self;
        left.reverse();
        done.append(left)?;
        Ok(done)
    }
}

impl Drop for Weaving {
    fn drop(self) {
        let Self {
            done: _done,
            left: _left,
        } = self;
    }
}

/// The name of the field as a member; one by place has none.
fn member_name(alloc: Global, field: &Field) -> Mem<Text>
    ensures { IfOk result (λ it. it ≡ decls.member_name field.now) }
{
    match &field.ident {
        Some(ident) => ident.to_text(alloc),
        None => Ok(Text::new(alloc)),
    }
}
