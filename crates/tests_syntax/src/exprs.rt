//! Expressions: a row is one that is printed as it stands, or `text => printing`; of `NO_EXPRS` it is none.

pub const EXPRS: &str = r##"1
0x1Fu8
1.5
"a"
r#"a"#
b"a"
b'a'
'a'
true
false
a
a :: b
:: a
self
a :: < B > :: c
a :: < 'a , 8 , B = C >
< A > :: b
< A as B < C > > :: d :: < E >
[]
[a]
[a , b]
[a ; 2]
()
(a)
(a ,)
(a , b)
{}
{a}
{a ;}
{a ; b}
{a ; b ;}
_
- a
! a
* a
& a
& mut a
& & a
- - a
a || b
a && b
a == b
a != b
a < b
a > b
a <= b
a >= b
a | b
a ^ b
a & b
a << b
a >> b
a + b
a - b
a * b
a / b
a % b
a && & b
a < - b
a - - b
a - b - c
a ()
a (b , c)
a . b
a . 0
a . b . c
a . b (c)
a . b :: < C > (d)
a . r#fn
a [b]
a ?
a . b ? [0] (c) . d ?
- a . b
- a ?
a .. b
a ..= b
a ..
.. b
..= b
..
a || b .. c || d
a .. & & b
a .. {b}
|| a
| a | b
| a , | b
| a | | b | c
| _ | a
| mut a | a
| & & a | b
| (a , (_ , mut b)) , & c | d
| a : A , b : & B | c
move | a | b
move || a .. b
| a | -> A {b}
| a | {b} + c
a<<b => a << b
a<b => a < b
a<=b => a <= b
a&&b => a && b
&&a => & & a
a&&&b => a && & b
a..=b => a ..= b
a..&&b => a .. & & b
.. => ..
[a,b,] => [a , b]
(a,b,) => (a , b)
a(b,) => a (b)
a.b::<>(c) => a . b (c)
a::<B,> => a :: < B >
a . b :: < C > (d) ? + - 1
| a | {b ; c}"##;

// The first row is empty.
pub const NO_EXPRS: &str = r#"
a b
1 2
a +
+ a
a + * 
|a:::B| c
a += b
a = b
a => b
a -> b
a as B
a : B
a <<= b
a < < b
a & & & 
a < b < c
a == b == c
a < b >= c
a..b..c
a..=
..=
. . a
a...b
a. .b
a ..|b| c
(a b)
(,)
(a,,)
[a b]
[,]
[a;]
[;a]
[a;b;c]
[a,b;c]
{a b}
{;}
{a;;}
a.
a.b.
a.1u8
a.0x1
a.0.1
a."b"
a.fn
a.self
a.b::<C>
a.b::(c)
a.b<C>(d)
a::
a::<B
a::(b)
a<B>(c)
a[]
a[b, c]
a {b}
a!()
a(b c)
|a b| c
|a
|a|
|1| a
|a: | b
|a| -> A b
move a
move
if a {b}
let a
& mut
fn"#;
