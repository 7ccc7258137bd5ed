use thiserror::Error;

/// What is wrong with a line: the first that fits, from left to right behind `Word` and `Count`.
#[derive(Clone, Copy, Debug, PartialEq, Eq, Error)]
pub enum LineFault {
    /// The first word is none of the lines', or the mode is none.
    #[error("a word that is none of those that may stand there")]
    Word,
    /// There are too few or too many words.
    #[error("too few or too many words")]
    Count,
    /// A number isn't canonical, or is out of its range.
    #[error("not a number in its range")]
    Number,
    /// An address isn't canonical.
    #[error("not an address")]
    Address,
    /// An axis is beyond 1,000,000.
    #[error("an axis is beyond 1,000,000")]
    Point,
    /// The bytes of a packet aren't two digits in lower case each, or are too many.
    #[error("not the bytes of a packet")]
    Bytes,
    /// Memory ran out, and nothing is known of the line.
    #[error("out of memory")]
    Memory,
}
