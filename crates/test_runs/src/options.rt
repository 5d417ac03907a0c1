// The options of a run: names, some of them with a number behind them.

/// The number behind a name among the options.
pub fn number_after(options: &str, name: &str) -> Option<usize> {
    let mut is_next = false;
    for word in options.split_whitespace() {
        if is_next {
            return word.parse::<usize>().ok();
        }
        is_next = word == name;
    }
    None
}

/// Whether the name stands among the options.
pub fn has_option(options: &str, name: &str) -> bool {
    for word in options.split_whitespace() {
        if word == name {
            return true;
        }
    }
    false
}
