//! Which popbox this is.

/// Its version, and whether it is proved. The toolchain keeps a program only if it is, so these
/// sources say so; tools/run-unproved, which keeps another, builds from a copy that says otherwise.
pub const VERSION: &str = "0.1.0 (proved)";

/// Whether it is proved, as the log of a server says it.
pub const IS_PROVED: bool = true;

/// What an unproved server says on standard error as it starts. (Measured on 29 November 2026:
/// 4.75 s of a processor.)
pub const SLOW: &str = "note: this popbox isn't proved, and is slow: a message of 1.5 MB takes \
                        5 s of a processor";

/// The end of `--help`, which says the same.
pub const FOOT: &str = "--verbose after a command: an error also says what it is about\n\
                        This program is proved";
