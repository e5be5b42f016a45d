//! The law of types of checked packages. The call does nothing: its clause is the law.
ghost use Rattle.package_atoms.specs.Laws.{CheckedPackagesAreTyped};

use type_model::Types;

/// Where a package is checked from atoms that are an environment, over which its names stand, the types of its module variables, those of the values that its bodies
/// call, and those of the variables that its isolated anonymous functions capture name only atoms that are there behind the check. So the
/// check of isolation may be asked of it.
pub fn checked_packages_are_typed<T: Types>()
    ensures { CheckedPackagesAreTyped T.passes }
{}
