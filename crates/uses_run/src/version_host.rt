//! A host of one's own.

ghost use Rattle.std.specs.Prelude.{◌≡◌, IfOk};
ghost use Rattle.machine_core.specs.host.HostSays.{erased_call, erased_decls, erased_place};
ghost use Rattle.uses_run.specs.VersionHost as spec;

use machine_core::{
    Arg, Callable, Decls, Host, HostItem, Items, Leaf, Mem, Path, Place, Said, StdHost, Text,
    TryClone, Type, Use, Value, is_function, leaf_of,
};
use std::alloc::Global;

/// A host that offers what the tool's does, and `#[darling(default = version)]` at a field of type `String`: a text that the
/// caller gives.
#[derive(Drop)]
pub struct VersionHost {
    pub version: Text,
    standard: StdHost,
}

impl VersionHost {
    /// The host whose `version` is this text.
    pub fn new(alloc: Global, version: &str) -> Mem<VersionHost>
        ensures { IfOk result (λ host. host.version ≡ version.now) }
    {
        Ok(VersionHost {
            version: Text::from_str(alloc, version)?,
            standard: StdHost::new(alloc)?,
        })
    }
}

/// Whether the function is `version`, and gives the default of a `String`.
fn is_version(decls: &Decls, call: Option<&Callable>, place: &Place) -> bool
    ensures { result ≡ spec.is_version (erased_decls decls.now) (erased_call call.entry) (erased_place place.now) }
{
    is_function(call, "version") && is_default(place.at) && is_string(leaf_of(decls, &place.ty))
}

fn is_default(at: Use) -> bool
    ensures { result ≡ spec.is_default at }
{
    matches!(at, Use::Default)
}

fn is_string(leaf: Option<Leaf>) -> bool
    ensures { result ≡ spec.is_string leaf }
{
    matches!(leaf, Some(Leaf::String))
}

impl Host for VersionHost {
    ghost use Rattle.uses_run.specs.VersionHost.{versioned, versioned_is_lawful};

    ghost says = { λ host. versioned host.version };

    ghost lawful = { λ host. versioned_is_lawful host.version };

    fn offers(&self, decls: &Decls, call: Option<&Callable>, place: &Place) -> bool {
        is_version(decls, call, place) || self.standard.offers(decls, call, place)
    }

    fn answer(
        &self,
        alloc: Global,
        decls: &Decls,
        call: Option<&Callable>,
        place: &Place,
        arg: Arg<'_>,
    ) -> Mem<Said> {
        if is_version(decls, call, place) {
            return Ok(Said::Given(Value::Text(self.version.try_clone(alloc)?)));
        }
        self.standard.answer(alloc, decls, call, place, arg)
    }

    fn takes(&self, call: &Path) -> Option<&Type> {
        self.standard.takes(call)
    }

    fn knows(&self, ty: &Type) -> bool {
        self.standard.knows(ty)
    }

    fn has_default(&self, decls: &Decls, ty: &Type) -> bool {
        self.standard.has_default(decls, ty)
    }

    fn defaulted(&self, alloc: Global, decls: &Decls) -> Mem<Items<bool>> {
        self.standard.defaulted(alloc, decls)
    }

    fn default_of(&self, alloc: Global, decls: &Decls, ty: &Type) -> Mem<Value> {
        self.standard.default_of(alloc, decls, ty)
    }

    fn convert(&self, alloc: Global, ty: &Type, item: HostItem<'_>) -> Mem<Said> {
        self.standard.convert(alloc, ty, item)
    }

    fn none_of(&self, alloc: Global, ty: &Type) -> Mem<Option<Value>> {
        self.standard.none_of(alloc, ty)
    }
}
