// The exit statuses, one for each way in which a run ends.

/// No reply is a refusal, or the verdict is yes.
pub const DONE: u8 = 0;

/// A reply is a refusal, or the verdict is another.
pub const REFUSED: u8 = 1;

/// The words ask for no mode.
pub const USAGE: u8 = 2;

/// Reading failed.
pub const READ_FAULT: u8 = 3;

/// Writing failed.
pub const WRITE_FAULT: u8 = 4;

/// Memory was wanting.
pub const OUT_OF_MEMORY: u8 = 5;

/// The input is past its limit.
pub const TOO_LONG: u8 = 6;
