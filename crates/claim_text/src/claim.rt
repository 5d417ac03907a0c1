// The reader of claims.
mod draft;
mod fields;
mod lines;
mod order;
mod path_draft;
mod path_lines;
pub(crate) mod reader;
mod seen;
