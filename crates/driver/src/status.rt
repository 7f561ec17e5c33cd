//! The program's exit statuses.

/// All was done.
pub const DONE: u8 = 0;

/// The text of a program or of a race's script is refused, or what a race opens.
pub const REFUSED: u8 = 1;

/// The command line is a bad one, or asks for help.
pub const BAD_COMMAND_LINE: u8 = 2;

/// All was done, and some run ended by a fault.
pub const FAULTED: u8 = 3;

/// Memory ran out, or a race found nothing published.
pub const NO_MEMORY: u8 = 4;

/// Reading or writing failed.
pub const DEVICE_FAILED: u8 = 5;
