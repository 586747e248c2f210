//! Items and lists. A row is an item that is printed as it stands, or `text => printing`; of the tables with
//! more kinds than one it is `kind | text => answer`. Of a list the number of its items is told, and their printings.

use crate::node::SOURCE;
use node_core::{Items, TokenStream, TryClone};
use std::alloc::Global;
use std::test::Fail;
use syn_core::{item_prefix, parse_derive_input};
use tests_checks::{Tested, row_of, tokens};

pub const ITEMS: &str = r#"struct S ;
struct S {}
struct S () ;
struct S {a : A}
struct S {a : A , b : B}
struct S (A) ;
struct S (A , B) ;
struct S {# [a] pub a : A}
struct S (# [a] pub (crate) A , pub (in a :: b) B) ;
struct r#type ;
enum E {}
enum E {A}
enum E {A , B (C) , D {e : E}}
enum E {A = 1 , B (C) = x + 1}
enum E {# [a] A}
union U {a : A}
union U {}
struct union {union : union}
pub struct S ;
pub (crate) struct S ;
pub (self) enum E {}
pub (super) union U {}
pub (in a :: b) struct S ;
# [a] struct S ;
# [a] # [b (c , d)] # [e = 1] struct S ;
# [:: a :: b :: struct :: _] struct S ;
# [a [b]] # [a {b}] struct S ;
# [a = - 1] # [a = - 1.5] # [a = "x"] struct S ;
# [a = b + c (d)] struct S ;
# [a = struct S] struct S ;
struct S < 'a > ;
struct S < 'a : 'b + 'c > ;
struct S < T > (T) ;
struct S < T : A + 'a + ? Sized > ;
struct S < T = u8 > ;
struct S < T : A = Vec < u8 > > ;
struct S < const N : usize > ;
struct S < const N : usize = 8 > ;
struct S < const N : usize = {8 + 1} > ;
struct S < const N : usize = M > ;
struct S < 'a , T , const N : usize > {a : [& 'a T ; N]}
struct S < # [a] T , # [b] 'a , # [c] const N : bool = true > ;
struct S < T > where T : A {a : T}
struct S < T > (T) where T : A ;
struct S where ;
enum E < T > where T : A + B , for < 'a > & 'a T : C < 'a > , 'a : 'b + 'c {A (T)}
# [a (b ,)] pub struct S < T > where T : A {a : T , r#type : u8}
enum E {A , B (C) , D = 1}
# [a = 1 2] struct S ;
# [a = struct] struct S ;
# [a = , a] struct S ;
# [a = a b c] struct S ;
# [a = ..=] struct S ;
# [a = - a -] struct S ;
struct S<>; => struct S ;
struct S<T,>{a:A,} => struct S < T > {a : A}
struct S(A,); => struct S (A) ;
enum E{A,B,} => enum E {A , B}
struct S<T> where T:A,{} => struct S < T > where T : A {}
#[a=-1]struct S; => # [a = - 1] struct S ;
#[a(b,)]struct S; => # [a (b ,)] struct S ;
struct S{a:A<B<C>>} => struct S {a : A < B < C > >}"#;

pub const NO_ITEMS: &str = "struct
struct S
struct ;
struct fn ;
struct S [];
struct S { a }
struct S { a: }
struct S { a:: A }
struct S { a: A b: B }
struct S { a: A,, }
struct S { , }
struct S { #[a] }
struct S (A)
struct S (a: A);
struct S (A) {}
struct S {};
struct S <;
struct S < T;
struct S < T U > ;
struct S < T: > ;
struct S < T = > ;
struct S < 'a: T > ;
struct S < 'a = 'b > ;
struct S < const N > ;
struct S < const N: u8 = 1 + 1 > ;
struct S < const N: u8 = -1 > ;
struct S < const N: u8 = fn > ;
struct S where T;
struct S where T: ;
struct S where T: A U: B;
struct S where 'a: T;
struct S {} where T: A
enum E
enum E ;
enum E (A);
enum E { fn }
enum E { A B }
enum E { A = }
enum E { pub A }
enum E { A [B] }
union U;
union U (A);
r#union U {}
r#struct S;
pub
pub (a) struct S;
pub (in) struct S;
#[] struct S;
#[a b] struct S;
#[a =] struct S;
# struct S;";

// Arguments are told with their place where it is not the whole text. Of a front, how many tokens the text has
// and how many of them the longest front of items.
pub const LISTS: &str = "items |  => 0
items | struct S; => 1 ~ struct S ;
items | struct S; enum E {} #[a] pub union U {} => 3 ~ struct S ; ~ enum E {} ~ # [a] pub union U {}
items | struct S {} struct T(A); struct U where A: B {} => 3 ~ struct S {} ~ struct T (A) ; ~ struct U where A : B {}
items | enum E {} struct S; => 2 ~ enum E {} ~ struct S ;
exprs |  => 0
exprs | a + b => 1 ~ a + b
exprs | a, b, => 2 ~ a ~ b
exprs | a, (b, c), |d| e => 3 ~ a ~ (b , c) ~ | d | e
idents |  => 0
idents | a => 1 ~ a
idents | a, r#fn, => 2 ~ a ~ r#fn
paths |  => 0
paths | a::b => 1 ~ a :: b
paths | A<B, C>, ::d => 2 ~ A < B , C > ~ :: d
arguments | a: A => a : A
arguments | a: A, => a : A at a: A
arguments | _: A, b: B => _ : A , b : B
arguments | mut a: &A => mut a : & A
arguments | &a: A => & a : A
arguments | (a, &mut b): (A, B) => (a , & mut b) : (A , B)
front |  => 0 0
front | struct S; => 3 3
front | struct S; struct => 4 3
front | struct S; ; => 4 3
front | struct S {} enum E {} #[a] struct => 9 6
front | struct S where T: A => 6 0
front | fn f() {} => 4 0
front | struct S { a } struct T; => 6 0";

pub const NO_LISTS: &str = "items | struct S; struct
items | a
items | struct S;;
items | struct S; #[a]
exprs | ,
exprs | a b
exprs | a,,
exprs | a; b
idents | ,
idents | a b
idents | fn
idents | a::b
paths | ,
paths | a b
paths | a, <A>::b
paths | 1
arguments | ,
arguments | a
arguments | a: A b: B
arguments | a::A
arguments | 1: A
arguments | a: 
arguments | self";

/// An item that is cut after any of its tokens is none, and begins no list of items; whole it does.
fn cuts_are_refused(alloc: Global, text: &str) -> Tested<()> {
    let whole = tokens(alloc, SOURCE, text)?;
    let trees = Items::new(alloc);
    let mut front = TokenStream { trees };
    for tree in whole.trees.as_slice() {
        if item_prefix(alloc, &front)? != 0 || parse_derive_input(alloc, &front).is_ok() {
            let kept = front.trees.len();
            return Err(Fail::new(format_args!("{text} after {kept} tokens")));
        }
        front.trees.push(tree.try_clone(alloc)?)?;
    }
    if item_prefix(alloc, &front)? == front.trees.len() {
        return Ok(());
    }
    Err(Fail::new(format_args!("{text} is no front")))
}

#[test]
fn cut_items_are_refused(rt: HostRuntime) -> Tested<()> {
    for row in ITEMS.lines() {
        let (text, _) = row_of(row);
        cuts_are_refused(rt.alloc(), text)?;
    }
    Ok(())
}
