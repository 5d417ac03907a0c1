// The text of problems: the lines of their rows and stays.
pub(crate) mod line_writers;
pub(crate) mod writer;
