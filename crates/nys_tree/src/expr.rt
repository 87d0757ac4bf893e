use crate::Name;
use sqlite_items::{Boxed, Items};

/// `expr`: operands joined by `or`.
#[cycle(tree)]
#[derive(Drop)]
pub struct Expr {
    /// The leftmost operand.
    pub first: Both,
    /// The operands behind each `or`, from left to right.
    pub rest: Items<Both>,
}

/// `both`: operands joined by `and`.
#[cycle(tree)]
#[derive(Drop)]
pub struct Both {
    /// The leftmost operand.
    pub first: Neg,
    /// The operands behind each `and`, from left to right.
    pub rest: Items<Neg>,
}

/// `neg`: a comparison, or the opposite of a truth.
#[cycle(tree)]
#[derive(Drop)]
pub enum Neg {
    /// `not`, and what it turns.
    Not(Boxed<Neg>),
    /// A comparison, or a sum alone.
    Plain(Test),
}

/// `cmp`: a sum, or two sums that are compared.
#[cycle(tree)]
#[derive(Drop)]
pub struct Test {
    /// The left sum.
    pub left: Sum,
    /// The comparison and the right sum, where there are any.
    pub right: Option<(Compare, Sum)>,
}

/// The six comparisons.
#[derive(Clone, Copy, Debug, PartialEq, Eq)]
pub enum Compare {
    /// `==`
    Equal,
    /// `!=`
    NotEqual,
    /// `<`
    Less,
    /// `<=`
    LessEqual,
    /// `>`
    Greater,
    /// `>=`
    GreaterEqual,
}

/// `sum`: terms joined by `+` and `-`.
#[cycle(tree)]
#[derive(Drop)]
pub struct Sum {
    /// The leftmost term.
    pub first: Term,
    /// Each further operator with its term, from left to right.
    pub rest: Items<Tail>,
}

/// The operators of a sum.
#[derive(Clone, Copy, Debug, PartialEq, Eq)]
pub enum AddOp {
    /// `+`
    Plus,
    /// `-`
    Minus,
}

/// An operator of a sum, and the term behind it.
#[cycle(tree)]
#[derive(Drop)]
pub struct Tail {
    /// The operator.
    pub op: AddOp,
    /// The term behind it.
    pub term: Term,
}

/// `term`: factors joined by `*`, `/` and `%`.
#[cycle(tree)]
#[derive(Drop)]
pub struct Term {
    /// The leftmost factor.
    pub first: Factor,
    /// Each further operator with its factor, from left to right.
    pub rest: Items<TermTail>,
}

/// The operators of a term.
#[derive(Clone, Copy, Debug, PartialEq, Eq)]
pub enum MulOp {
    /// `*`
    Times,
    /// `/`
    Over,
    /// `%`
    Rest,
}

/// An operator of a term, and the factor behind it.
#[cycle(tree)]
#[derive(Drop)]
pub struct TermTail {
    /// The operator.
    pub op: MulOp,
    /// The factor behind it.
    pub factor: Factor,
}

/// `factor`: what no operator of two sides takes apart.
#[cycle(tree)]
#[derive(Drop)]
pub enum Factor {
    /// `-`, and what it turns.
    Minus(Boxed<Factor>),
    /// A NUMBER, at least 0 where it was read from a text.
    Number(i64),
    /// `me`: the host's number.
    Me,
    /// `hosts`: how many hosts there are.
    Hosts,
    /// `len`, and the list whose length it is.
    Len(Name),
    /// A scalar's name.
    Scalar(Name),
    /// A list's name, and the index in brackets.
    Item(Name, Boxed<Expr>),
    /// An expression in parentheses.
    Inner(Boxed<Expr>),
}
