//! The law of code that is run in the place of its package. This call does nothing: its clause is a law.
ghost use Rattle.package_code.specs.Laws.{CodeRunsAsItsPackage};

use op_model::Meaning;

/// What comes of runs of a program, by the picks of a seed, comes of runs of the trees of a package, where its code is lowered from that
/// package with its variables read as declared.
pub fn code_runs_as_its_package<N: Meaning>()
    ensures { CodeRunsAsItsPackage N.answers }
{}
