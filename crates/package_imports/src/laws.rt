//! A law of what imports name. The call does nothing: its clause is the law.
ghost use Rattle.package_imports.specs.InPackage.{KeepsTargets};

/// Where a package is made of the modules of a home, an import names in it the module that it names of the home.
pub fn targets_are_kept()
    ensures { KeepsTargets }
{}
