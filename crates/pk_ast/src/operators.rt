// Operators (C99 6.5), and the operators on numbers that they stand for.

ghost use Rattle.std.specs.Prelude.{◌≡◌};
ghost use Rattle.pk_ast.specs.Operators.{binary_number_operator, unary_number_operator, step_number_operator, assignment_number_operator};

use pk_ctypes::Op;

/// An operator that joins two operands from left to right, weakest first (C99 6.5.5 to 6.5.14).
#[derive(Clone, Copy)]
pub enum BinaryOperator {
    LogicalOr,
    LogicalAnd,
    Or,
    ExclusiveOr,
    And,
    Equal,
    NotEqual,
    Less,
    Greater,
    LessOrEqual,
    GreaterOrEqual,
    ShiftLeft,
    ShiftRight,
    Add,
    Subtract,
    Multiply,
    Divide,
    Remainder,
}

/// A prefix operator on a value (C99 6.5.3.3).
#[derive(Clone, Copy, PartialEq, Eq)]
pub enum UnaryOperator {
    Plus,
    Minus,
    Complement,
    Not,
}

/// `++` or `--`, before or after its operand (C99 6.5.2.4, 6.5.3.1).
#[derive(Clone, Copy, PartialEq, Eq)]
pub enum StepOperator {
    Increment,
    Decrement,
}

/// `=`, or an operator that reads the left side too (C99 6.5.16).
#[derive(Clone, Copy)]
pub enum AssignmentOperator {
    Assign,
    Multiply,
    Divide,
    Remainder,
    Add,
    Subtract,
    ShiftLeft,
    ShiftRight,
    And,
    ExclusiveOr,
    Or,
}

impl BinaryOperator {
    /// The operator on two numbers. `&&` and `||` are none, since their second operand may not be evaluated.
    pub fn number_operator(self) -> Option<Op>
        ensures { result ≡ binary_number_operator self }
    {
        match self {
            BinaryOperator::LogicalOr => None,
            BinaryOperator::LogicalAnd => None,
            BinaryOperator::Or => Some(Op::Or),
            BinaryOperator::ExclusiveOr => Some(Op::Xor),
            BinaryOperator::And => Some(Op::And),
            BinaryOperator::Equal => Some(Op::Eq),
            BinaryOperator::NotEqual => Some(Op::Ne),
            BinaryOperator::Less => Some(Op::Lt),
            BinaryOperator::Greater => Some(Op::Gt),
            BinaryOperator::LessOrEqual => Some(Op::Le),
            BinaryOperator::GreaterOrEqual => Some(Op::Ge),
            BinaryOperator::ShiftLeft => Some(Op::Shl),
            BinaryOperator::ShiftRight => Some(Op::Shr),
            BinaryOperator::Add => Some(Op::Add),
            BinaryOperator::Subtract => Some(Op::Sub),
            BinaryOperator::Multiply => Some(Op::Mul),
            BinaryOperator::Divide => Some(Op::Div),
            BinaryOperator::Remainder => Some(Op::Rem),
        }
    }
}

impl UnaryOperator {
    /// The operator on one number. `+` is none: it only promotes its operand.
    pub fn number_operator(self) -> Option<Op>
        ensures { result ≡ unary_number_operator self }
    {
        match self {
            UnaryOperator::Plus => None,
            UnaryOperator::Minus => Some(Op::Neg),
            UnaryOperator::Complement => Some(Op::BitNot),
            UnaryOperator::Not => Some(Op::Not),
        }
    }
}

impl StepOperator {
    /// The operator on what is stepped and 1.
    pub fn number_operator(self) -> Op
        ensures { result ≡ step_number_operator self }
    {
        match self {
            StepOperator::Increment => Op::Add,
            StepOperator::Decrement => Op::Sub,
        }
    }
}

impl AssignmentOperator {
    /// The operator on the left side's value and the right one's. `=` has none.
    pub fn number_operator(self) -> Option<Op>
        ensures { result ≡ assignment_number_operator self }
    {
        match self {
            AssignmentOperator::Assign => None,
            AssignmentOperator::Multiply => Some(Op::Mul),
            AssignmentOperator::Divide => Some(Op::Div),
            AssignmentOperator::Remainder => Some(Op::Rem),
            AssignmentOperator::Add => Some(Op::Add),
            AssignmentOperator::Subtract => Some(Op::Sub),
            AssignmentOperator::ShiftLeft => Some(Op::Shl),
            AssignmentOperator::ShiftRight => Some(Op::Shr),
            AssignmentOperator::And => Some(Op::And),
            AssignmentOperator::ExclusiveOr => Some(Op::Xor),
            AssignmentOperator::Or => Some(Op::Or),
        }
    }
}
