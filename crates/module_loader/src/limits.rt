//! The limits of a package, once each. That of one file stands in `bal_base`.

/// The most source files that a package may have.
pub const MOST_FILES: usize = 256;

/// The most modules that a package may have, the default one among them.
pub const MOST_MODULES: usize = 64;

/// The most bytes that the source files of a package may have together.
pub const MOST_PACKAGE_BYTES: u64 = 16_777_216;
