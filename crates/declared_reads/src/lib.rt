//! Packages whose variables are read as they are declared, as definitions and laws. The trees of a package never look at what a read
//! is narrowed to, but its code casts behind each narrowed read, and goes round and round at the end of a body that is said not to
//! end. So code has the outcomes of a package only where what checkers say of it is so. A package whose variables are read as declared
//! has the same outcomes, and for it all of this is so whatever checkers say: its code has the outcomes of the package.
//!
//! The definitions are files of `specs/`:
//!
//! - `Declared`: when a package is another one with its variables read as declared.
//! - `Laws`.
//!
//! Beside them stands the law, [`declared_packages_do_the_same`].
#![tactic(auto)]

mod laws;

pub use laws::declared_packages_do_the_same;
