//! The version of the program.

/// The version. It is written only here.
pub const VERSION: &str = "1.0.0";

/// The logic in which the program is proved: the beginning of the checksum that `rt version`
/// prints.
pub const LOGIC: &str = "dac8208d650f15bf";
