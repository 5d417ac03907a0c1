// The meanings of causes, with the numbers of limits.
use crate::parts::Most;
use compile_parts::ADDEND_LIMIT;
use edge_io::LINE_LIMIT;
use name_tables::{METRIC_LIMIT, NAME_LIMIT};
use problem_core::{REQUIRED, TERM_LIMIT, WEIGHT_LIMIT};
use tell_finding::digits_behind;
use tell_mend::Reader;
use view_tree::DEPTH_LIMIT;

// The number for `{}` in a cause's meaning, in a session with these limits.
fn limit_of(words: &str, most: Most) -> usize {
    match words {
        "limit lines" => most.lines,
        "limit rows" => most.rows,
        "limit views" => most.views,
        "limit depth" => DEPTH_LIMIT as usize,
        "limit metrics" => METRIC_LIMIT,
        "limit line" => LINE_LIMIT,
        "limit name" => NAME_LIMIT,
        "limit terms" => ADDEND_LIMIT,
        "limit attributes" => TERM_LIMIT,
        "limit budget" => digits_behind(i64::try_from(most.budget).unwrap_or(i64::MAX)),
        "kind priority" => REQUIRED as usize,
        _ => WEIGHT_LIMIT as usize,
    }
}

// Appends the number, with a comma before its last three digits unless it is one that scripts contain.
fn put_limit(reader: &mut Reader, out: &mut Vec<u8>, words: &str, number: usize) {
    let rest = number % 1000;
    if number < 1000 || words.starts_with("kind") {
        return reader.put_count(out, number);
    }
    reader.put_count(out, (number / 1000));
    reader.put(
        out,
        if rest < 10 {
            b",00"
        } else if rest < 100 {
            b",0"
        } else {
            b","
        },
    );
    reader.put_count(out, rest);
}

/// Appends what the cause means that these words name, with the number of its limit.
pub(crate) fn put_why(reader: &mut Reader, out: &mut Vec<u8>, words: &str, why: &str, most: Most) {
    match why.split_once("{}") {
        Some((front, rest)) => {
            reader.put(out, front.as_bytes());
            put_limit(reader, out, words, limit_of(words, most));
            reader.put(out, rest.as_bytes());
        }
        None => reader.put(out, why.as_bytes()),
    }
}
