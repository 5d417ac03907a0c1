// What stands for a number in a format or a line.

/// A number in thousandths, or the name of what has one.
#[derive(Clone, Copy)]
pub enum Object<'a> {
    Number { thousandths: i32 },
    Name { text: &'a str },
}
