//! How what is looked up tells its name.

ghost use Rattle.std.specs.Prelude.{◌≡◌};

/// How a `T` tells the name by which it is looked up.
pub trait NameOf<T> {
    ghost use Rattle.base_core.specs.declared.text.Text.{Text as Name};

    /// The name.
    ghost name_of: { T → Name };

    fn name(item: &T) -> &str
        ensures { result.now ≡ name_of item.now };
}
