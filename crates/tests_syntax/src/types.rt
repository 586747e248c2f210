//! Types, paths, identifiers and parts of items. A row is a type that is printed as it stands, or
//! `text => printing`; of the tables with more kinds than one it is `kind | text`.

pub const TYPES: &str = "()
(A ,)
(A , B)
(A)
!
_
& A
& 'a A
& mut A
& 'a mut A
& dyn A
* const A
* mut A
* const impl A
[A]
[A ; 8]
[A ; N + 1]
fn ()
fn (A , b : B) -> C
fn () -> dyn A
for < 'a > fn (& 'a A)
for < 'a , 'b > fn ()
dyn A
dyn A + 'a + B < C >
dyn ? Sized
dyn ? for < 'a > F < 'a >
impl A + B
impl 'a
A
r#type
self
Self :: A
super :: a :: B
crate :: A
:: a :: B
A < >
A < B >
A < 'a , B , 8 , {N} , true >
A < B = C >
A < B = 8 >
A < B = {1} >
A < B = false >
A < B : C + 'a >
A < B :: C >
A < dyn B + C >
A < B < C > >
A < fn () -> B >
a :: B < C > :: D < E >
Fn ()
Fn (A , B) -> C
Fn (A) -> B :: C
< A > :: B
< A as B > :: C
< A as b :: B < C > > :: D :: E < F >
< & A > :: B
A < < B > :: C >
A::<B> => A < B >
A<B<C>> => A < B < C > >
A<B<C<D>>> => A < B < C < D > > >
(A,B,) => (A , B)
A<B,> => A < B >
fn(A,)->B => fn (A) -> B
for<>fn() => fn ()
for<'a,>fn() => for < 'a > fn ()
Fn(A,) => Fn (A)
&&A => & & A
A<<B>::C> => A < < B > :: C >
<A>::B::<C> => < A > :: B < C >
& 'a mut [A < B > ; 8]
dyn for < 'a > A < 'a > + 'static";

// The first row is empty.
pub const NO_TYPES: &str = "
u8 u8
(,)
(A B)
(A,,)
! !
_ _
&
& const A
& dyn A + B
& mut
* A
* const
* const mut A
[]
[A;]
[A; 8; 8]
[A, B]
fn
fn A
fn(a:)
fn(_: A)
fn(A) ->
fn(A) - > B
fn(..)
unsafe fn()
for<'a> A
for<A> fn()
for fn()
dyn
dyn A +
dyn + A
dyn (A)
dyn ?'a
impl
A + B
A::
A: :B
T:::a
::
mut
A<B
A<B C>
A<,>
A<B=>
A<B:>
A<-1>
Fn(A) -> 
<A>
<A as B>
<A as>::B
<A as B>C
'a";

// Paths and identifiers, and parts of items; the first visibility is empty.
pub const NAMED: &str = "path | a
path | :: a
path | a :: b < C > :: d
path | Fn (A) -> B
path | Self
ident | a
ident | union
ident | r#fn
path | :: a :: B < 'c , D = E , 8 >
where | where
where | where T : A
where | where T : A + B + 'a
where | where T : ? Sized , U : A
where | where 'a : 'b
where | where 'a : 'b + 'c , T : A
where | where for < 'a > T : A < 'a >
where | where & A : B , [A ; 8] : C
where | where < A as B > :: C : D
visibility | 
visibility | pub
visibility | pub (crate)
visibility | pub (self)
visibility | pub (super)
visibility | pub (in a :: b)
visibility | pub (in :: a)
parameter | T
parameter | T : A + 'a
parameter | T = u8
parameter | T : A = Vec < u8 >
parameter | # [a] # [b (c)] T
parameter | r#fn : A
where | where T : A + 'a , 'b : 'c
parameter | # [a] T : A + 'a = B";

pub const NOT_NAMED: &str = "path | 
path | a b
path | a::
path | <A>::b
path | &a
path | fn
path | a.
ident | 
ident | fn
ident | self
ident | _
ident | a b
ident | 1
where | 
where | T: A
where | where T
where | where T:
where | where !:::A
where | where _:::A
where | where T: A;
where | where , T: A
where | where 'a
where | where 'a: T
visibility | crate
visibility | pub pub
visibility | pub (a)
visibility | pub ()
visibility | pub (crate , self)
visibility | pub (r#crate)
visibility | pub [crate]
visibility | pub (in)
parameter | 
parameter | 'a
parameter | const N : u8
parameter | T :
parameter | T =
parameter | T = A : B
parameter | fn";
