//! The target of a branch or jump, and what `li` loads.

/// A number, or the name of a label.
pub enum Target<N> {
    Number(i64),
    Label(N),
}
