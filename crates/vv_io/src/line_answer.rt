//! What a reader of lines answers.

/// What a reader of lines answers.
#[derive(Clone, Copy, Debug, PartialEq, Eq)]
pub enum Next {
    /// The next line.
    Line,
    /// The next line, which is above the limit.
    TooLong,
    /// The source gave its end, and no line is left.
    End,
    /// A byte past the most of a script was taken.
    TooMuch,
}
