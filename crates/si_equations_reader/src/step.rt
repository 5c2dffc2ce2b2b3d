//! Expressions as they are held: steps, one after another, each behind its operands.

/// A step of an expression. Its operands are the last results that no step has taken yet.
#[derive(Clone, Copy)]
pub enum Step<'a> {
    /// The value of the pin with this name, which may stand in brackets.
    Pin(&'a [u8]),
    Constant(bool),
    /// The complement of the last result.
    Not,
    /// 1 where the last two results are.
    And,
    /// 1 where one of the last two results is.
    Or,
}
