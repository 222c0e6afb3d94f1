// The kinds of records, by their numbers. A byte that is read may be none of them, and what specs/ says is of any byte:
// so kinds are read and written as bytes, and these are the names of the numbers.

// The records of an expression.
#[derive(Clone, Copy, PartialEq, Eq)]
pub enum Kind {
    Constant = 0,
    Variable = 1,
    Add = 2,
    Mul = 3,
    And = 4,
    Or = 5,
    Xor = 6,
    Not = 7,
    Neg = 8,
    Shr = 9,
    ZExt = 10,
    SExt = 11,
    Trunc = 12,
    Concat = 13,
}

// The records of a semilinear form beside those of its trees.
#[derive(Clone, Copy, PartialEq, Eq)]
pub enum FormKind {
    Sum = 32,
    Head = 33,
    Term = 34,
}
