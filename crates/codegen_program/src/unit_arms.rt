//! Arms of variants that are looked up by a string.

ghost use Rattle.std.specs.Prelude.{◌≡◌, ◌<◌, ◌≤◌, ◌+◌, ◌*◌, ◌^◌, ◌⊎◌, ℕ, IfOk, length, position};
ghost use Rattle.std.specs.Str.{bytes_eq};
ghost use Rattle.base_index.specs.Count.{last};
ghost use Rattle.codegen_program.specs.Named.{unit_arm_names};

use crate::variant::UnitArm;
use base_core::{Items, Mem, TryClone};
use base_index::{NameIndex, NameOf, Tally};
use std::alloc::Global;
use std::marker::Model;

/// The name of an arm.
struct UnitArmName {}

impl NameOf<UnitArm> for UnitArmName {
    ghost name_of = { λ arm. arm.name };

    fn name(arm: &UnitArm) -> &str {
        arm.name.as_str()
    }
}

/// Arms in their order, with the index of their names. A contract sees the list.
///
/// The index is made once, with the list: where each of many strings names a variant of one enum, no string is compared
/// with each of its variants.
pub struct UnitArms {
    arms: Items<UnitArm>,
    index: NameIndex,
}

impl Model for UnitArms {
    ghost use Rattle.std.specs.Coded.{coded_list};
    ghost use Rattle.std.specs.Prelude.{List};
    ghost use Rattle.codegen_program.specs.contracts.variant.UnitArm as contents;
    ghost use Rattle.codegen_program.specs.declared.variant.UnitArm.{UnitArm};
    ghost use Rattle.base_index.specs.Index.{IsIndex};
    ghost use Rattle.codegen_program.specs.Named.{unit_arm_names};

    ghost Value = { List UnitArm };

    ghost coded = { coded_list contents.the_row.coded };

    ghost view = { λ it. it.arms };

    ghost invariant = { λ it. IsIndex it.index (unit_arm_names it.arms) };
}

impl Drop for UnitArms {
    fn drop(self) {
        let Self {
            arms: _arms,
            index: _index,
        } = self;
    }
}

impl TryClone for UnitArms {
    fn try_clone(&self, alloc: Global) -> Mem<UnitArms> {
        let arms = self.arms.try_clone(alloc)?;
        let index = self.index.try_clone(alloc)?;
        Ok(UnitArms { arms, index })
    }
}

impl UnitArms {
    /// The arms with their index.
    pub fn new(alloc: Global, arms: Items<UnitArm>) -> Mem<UnitArms>
        ensures { IfOk result (λ it. it ≡ arms) }
    {
        let index = NameIndex::new::<UnitArm, UnitArmName>(alloc, arms.as_slice())?;
        Ok(UnitArms { arms, index })
    }

    pub fn as_slice(&self) -> &[UnitArm]
        ensures { result.now ≡ self.now }
    {
        self.arms.as_slice()
    }

    /// The place of the first arm of the name. With `d` the least number such that fewer than 2^d arms are there, the
    /// names are compared at most 2 `d` times.
    pub fn find(&self, name: &str, tally: &mut Tally) -> Option<usize>
        ensures place { result ≡ position (λ other. bytes_eq other name.now) (unit_arm_names self.now) }
        ensures most { (d : ℕ) → length self.now < 2 ^ d → tally.new ≤ tally.old + 2 * d }
        ensures grows { tally.old ≤ tally.new }
        ensures stays { tally.old ≡ last → tally.new ≡ last }
        ensures least { 0 < length self.now → (tally.old + 1 ≤ tally.new) ⊎ (tally.new ≡ last) }
    {
        self.index
            .find::<UnitArm, UnitArmName>(self.arms.as_slice(), name, tally)
    }
}
