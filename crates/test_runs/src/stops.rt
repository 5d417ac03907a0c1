// Replies with a path, cut.

/// What a refusal with a path prints, cut: the lines before the path, without the first, and the path.
#[derive(Clone, Copy)]
pub struct Stop<'a> {
    pub place: &'a str,
    pub path: &'a str,
}

impl<'a> Stop<'a> {
    /// The parts of a reply, if it has a path.
    pub fn of(reply: &'a str) -> Option<Stop<'a>> {
        let (front, _) = reply.split_once("\npath ")?;
        let path = reply.strip_prefix(front)?.strip_prefix("\n")?;
        let (_, place) = front.split_once("\n").unwrap_or((front, ""));
        Some(Stop { place, path })
    }

    /// The word of the place, with a blank behind it; none of the step.
    pub fn place_word(self) -> &'static str {
        if self.place.starts_with("still ") {
            "still "
        } else if self.place.starts_with("probe ") {
            "probe "
        } else if self.place.starts_with("held ") {
            "held "
        } else if self.place.starts_with("sweep ") {
            "sweep "
        } else {
            ""
        }
    }

    // The quantity that doesn't fit, if it is told.
    fn quantity(self) -> Option<&'a str> {
        let (_, quantity) = self.path.split_once("\nunfit ")?;
        Some(quantity)
    }

    /// The kind of the quantity: the word before its last number, as `attr` or `shifts`; or that the
    /// exchanges are used up.
    pub fn kind(self) -> &'a str {
        match self.quantity() {
            Some(quantity) => word_before(quantity),
            None => "spent",
        }
    }

    /// The path as the word `check` reads it: a mark that turns where that doesn't fit is no quantity there.
    pub fn claim(self) -> &'a str {
        match self.path.split_once("unfit breakpoint ") {
            Some((path, _)) => path,
            None => self.path,
        }
    }

    /// How many of the changed constants are the new ones, where it is told.
    pub fn shifts(self) -> Option<u32> {
        let (_, count) = self.quantity()?.split_once(" shifts ")?;
        count.trim_end().parse::<u32>().ok()
    }
}

// The word before the last one.
fn word_before(words: &str) -> &str {
    let (front, _) = words.rsplit_once(" ").unwrap_or((words, ""));
    match front.rsplit_once(" ") {
        Some((_, word)) => word,
        None => front,
    }
}
