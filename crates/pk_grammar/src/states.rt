// What the parser keeps of the tokens that it has read.

/// A statement that begins with a test in parentheses.
#[derive(Clone, Copy, PartialEq, Eq)]
pub enum Testing {
    If,
    Switch,
    While,
}
