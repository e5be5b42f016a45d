//! A law of the packages that folders make. The call does nothing: its clause is the law.
ghost use Rattle.module_loader.specs.Targets.{NamesModules};

/// An import names in the package of a folder the module that it names among the folders, at its place in the order of modules.
pub fn modules_are_named()
    ensures { NamesModules }
{}
