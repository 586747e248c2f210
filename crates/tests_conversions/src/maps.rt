//! Maps: keys that repeat or are none, values that fail, maps in maps, and one of many keys.

use crate::asked::{item_of, rows};
use crate::shown::{Debugged, Printed};
use error_core::{Expr, Path, Text};
use meta_core::{FromMeta, Ident, KeyFromPath, MapKey, Mem, Result as Answer, SortedKey, TryClone};
use std::alloc::Global;
use std::collections::{BTreeMap, HashMap};
use std::test::Fail;
use tests_checks::Tested;

// Keys are the texts of paths; a key whose value failed counts as one before.
const TEXTS: &str = r#"a() => 
a(c, b = false) => b=false;c=true;
a(r#b, b) => b=true;r#b=true;
a(b::c, b) => b=true;b::c=true;
a => 0..1 Unexpected meta-item format `word`;
a = 1 => 4..5 Unexpected type `int`;
a(=) => 2..3 expected a meta list;
a(1) => 0..4 Unexpected meta-item format `expression`;
a(1, "b", c = 2) => - Unexpected meta-item format `expression`;- Unexpected meta-item format `expression`;14..15 Unexpected type `int` at c;
a(::b, b) => 7..8 Duplicate field `b`;
a(b = 1, b) => 6..7 Unexpected type `int` at b;9..10 Duplicate field `b`;
a(b = c d, b = 2) => 6..7 expected an expression at b;11..12 Duplicate field `b`;15..16 Unexpected type `int` at b;
a(b::c = 1) => 9..10 Unexpected type `int` at b::c;
// btree_map_succeeds, hash_map_succeeds
ignore(hello, world = false, there = "true") => hello=true;there=true;world=false;
// btree_map_duplicate, hash_map_duplicate
ignore(hello, hello = false) => 14..19 Duplicate field `hello`;
// btree_map_multiple_errors, hash_map_multiple_errors
ignore(hello, hello = 3, hello = false) => 14..19 Duplicate field `hello`;22..23 Unexpected type `int` at hello;25..30 Duplicate field `hello`;"#;

// A path that is no identifier is a fault, and so is its value.
const IDENTS: &str = r#"a(c, b = false) => b=false;c=true;
a(r#b, b) => b=true;r#b=true;
a(b, b) => 5..6 Duplicate field `b`;
a(r#b, r#b) => 7..10 Duplicate field `r#b`;
a(::b) => 2..5 Key must be an identifier;
a(c::d, c::d) => 2..6 Key must be an identifier;8..12 Key must be an identifier;
a(b, c::d = 1) => 5..9 Key must be an identifier;12..13 Unexpected type `int` at c::d;
// btree_map_ident_succeeds, hash_map_ident_succeeds
ignore(first, second = false) => first=true;second=false;
// btree_map_ident_rejects_non_idents, hash_map_ident_rejects_non_idents
ignore(first, the::second) => 14..25 Key must be an identifier;"#;

// Paths that differ in their colon are other keys, of one text.
const PATHS: &str = r#"a(c, b::d = false) => b::d=false;c=true;
a(b = 1, ::b, ::b = 1) => 6..7 Unexpected type `int` at b;14..17 Duplicate field `b`;20..21 Unexpected type `int` at b;
a(b::c, b :: c) => 8..14 Duplicate field `b::c`;
a(b::c = 1, b::c = 2) => 9..10 Unexpected type `int` at b::c;12..16 Duplicate field `b::c`;19..20 Unexpected type `int` at b::c;
a(1, b) => 0..7 Unexpected meta-item format `expression`;
// hash_map_path_succeeds
ignore(first, the::second = false) => first=true;the::second=false;"#;

const EXPRS: &str = "// btree_map_expr_values_succeed
ignore(hello = 2 + 2, world = x.foo()) => hello=2 + 2;world=x . foo ();";

/// A key of one's own: the text of a path.
#[derive(PartialEq, Eq, PartialOrd, Ord, Hash, Drop)]
struct Name(Text);

impl KeyFromPath for Name {
    ghost Seen = { ⟦<Text as KeyFromPath>⟧.Seen };

    ghost seen = { λ name. ⟦<Text as KeyFromPath>⟧.seen name.0 };

    ghost key = { ⟦<Text as KeyFromPath>⟧.key };

    ghost same = { ⟦<Text as KeyFromPath>⟧.same };

    ghost text = { ⟦<Text as KeyFromPath>⟧.text };

    ghost order = { ⟦<Text as KeyFromPath>⟧.order };

    fn from_path(alloc: Global, path: &Path) -> Answer<Name> {
        Ok(Name(Text::from_path(alloc, path)?))
    }

    fn to_display(&self, alloc: Global) -> Mem<Text> {
        self.0.to_display(alloc)
    }
}

impl MapKey for Name {
    ghost use Rattle.std.specs.Prelude.{refl};
    ghost use Rattle.std.specs.Cmp.Lexicographic.{nat_list_eq_equiv};

    ghost same_is = { λ a b. refl };

    ghost same_laws = { nat_list_eq_equiv };

    fn copy(&self, alloc: Global) -> Mem<Name> {
        Ok(Name(self.0.try_clone(alloc)?))
    }
}

impl SortedKey for Name {
    ghost use Rattle.std.specs.Prelude.{refl};

    ghost order_is = { λ a b. refl };
}

type One<V> = BTreeMap<Text, V>;

type Two<V> = BTreeMap<Text, One<V>>;

type Three<V> = HashMap<Ident, Two<V>>;

type Four<V> = BTreeMap<String, Three<V>>;

type Five<V> = BTreeMap<Text, Four<V>>;

type Six<V> = HashMap<Path, Five<V>>;

type Seven<V> = HashMap<String, Six<V>>;

type Eight<V> = BTreeMap<Text, Seven<V>>;

const EIGHT: &str = "a(b(c(d(e(f(g(h(i)))))))) => b=c=d=e=f=g=h=i=true;;;;;;;;
a(b(c(d(e(f(g(h(i = 1)))))))) => 20..21 Unexpected type `int` at b/c/d/e/f/g/h/i;";

#[test]
fn maps(rt: HostRuntime) -> Tested<()> {
    let alloc = rt.alloc();
    rows::<BTreeMap<Text, bool>, BTreeMap<Text, Debugged>>(alloc, &[TEXTS])?;
    rows::<BTreeMap<String, bool>, BTreeMap<String, Debugged>>(alloc, &[TEXTS])?;
    rows::<BTreeMap<String, Expr>, BTreeMap<String, Printed>>(alloc, &[EXPRS])?;
    rows::<BTreeMap<Ident, bool>, BTreeMap<Ident, Debugged>>(alloc, &[IDENTS])?;
    rows::<Eight<bool>, Eight<Debugged>>(alloc, &[EIGHT])?;
    rows::<BTreeMap<Name, bool>, BTreeMap<Name, Debugged>>(alloc, &[TEXTS])?;
    rows::<HashMap<Text, bool>, HashMap<Text, Debugged>>(alloc, &[TEXTS])?;
    rows::<HashMap<String, bool>, HashMap<String, Debugged>>(alloc, &[TEXTS])?;
    rows::<HashMap<Ident, bool>, HashMap<Ident, Debugged>>(alloc, &[IDENTS])?;
    rows::<HashMap<Path, bool>, HashMap<Path, Debugged>>(alloc, &[PATHS])?;
    rows::<HashMap<Name, bool>, HashMap<Name, Debugged>>(alloc, &[TEXTS])?;
    Ok(())
}

/// A list of `a(k0,k1,..)`, of so many keys.
#[test]
fn a_hundred_thousand_keys(rt: HostRuntime) -> Tested<()> {
    let alloc = rt.alloc();
    let mut text = Text::from_str(alloc, "a(")?;
    for number in 0..100_000 {
        text.push_str(format!(in alloc; "k{number},")?.as_str())?;
    }
    text.push(')')?;
    let item = item_of(alloc, text.as_str())?;
    match BTreeMap::<Text, bool>::from_nested_meta(alloc, &item) {
        Ok(map) => {
            assert_eq!(rt; map.len(), 100_000);
            Ok(())
        }
        Err(_) => Err(Fail::new(format_args!("the keys are refused"))),
    }
}
