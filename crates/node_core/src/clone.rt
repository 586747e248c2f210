//! The clones of the nodes, file by file as the types stand.

mod attr;
mod data;
mod derive;
mod generics;
mod punctuated;
