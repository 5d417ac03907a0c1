// The reader of problems, and what their lines say.
mod attributes;
mod draft;
mod items;
pub(crate) mod reader;
mod row_lines;
mod stay_lines;
mod term_words;
