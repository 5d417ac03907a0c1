// How many rows a view and the window's size take, and the numbers of the window's rows.

/// How many rows a view takes: one of its width, one of its height.
pub const VIEW_ROWS: u32 = 2;

/// How many rows the window's size takes.
pub const SIZE_ROWS: u32 = 2;

/// How many rows a view's size takes.
pub const INTRINSIC_ROWS: u32 = 4;

/// The number of the row by which the window's left is 0.
pub const LEFT_ROW: u32 = 1;

/// The number of the row by which its top is 0.
pub const TOP_ROW: u32 = 2;

/// The number of the row by which its width is at least 0.
pub const WIDTH_ROW: u32 = 3;

/// The number of the row by which its height is at least 0.
pub const HEIGHT_ROW: u32 = 4;

/// The number of the first row after the window's.
pub const FIRST_FREE_ROW: u32 = 5;
