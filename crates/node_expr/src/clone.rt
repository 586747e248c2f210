//! The clones of the nodes, file by file as the types stand.
//!
//! The clones of the types that contain each other are one cycle of functions. A list, a box or an
//! option on the way back to such a type has a function of its own here: the way through a generic
//! clone gets no proof.

mod expr;
mod generics;
mod lit;
mod path;
mod ty;
