// Comparisons, negated and with exchanged operands.

ghost use Rattle.std.specs.Prelude.{◌≡◌};
ghost use Rattle.pk_transfer.specs.Guards.{negated as negated_op, flipped as flipped_op, is_comparison as compares};
ghost use Rattle.pk_ctypes.specs.Operators.{is_not as negates};

use pk_ctypes::Op;

/// The comparison that holds where this one doesn't.
pub(crate) fn negated(op: Op) -> Op
    ensures { result ≡ negated_op op }
{
    match op {
        Op::Lt => Op::Ge,
        Op::Gt => Op::Le,
        Op::Le => Op::Gt,
        Op::Ge => Op::Lt,
        Op::Eq => Op::Ne,
        Op::Ne => Op::Eq,
        Op::Add
        | Op::Sub
        | Op::Mul
        | Op::Div
        | Op::Rem
        | Op::Shl
        | Op::Shr
        | Op::And
        | Op::Or
        | Op::Xor
        | Op::Neg
        | Op::BitNot
        | Op::Not => op,
    }
}

/// The comparison of exchanged operands.
pub(crate) fn flipped(op: Op) -> Op
    ensures { result ≡ flipped_op op }
{
    match op {
        Op::Lt => Op::Gt,
        Op::Gt => Op::Lt,
        Op::Le => Op::Ge,
        Op::Ge => Op::Le,
        Op::Eq => Op::Eq,
        Op::Ne => Op::Ne,
        Op::Add
        | Op::Sub
        | Op::Mul
        | Op::Div
        | Op::Rem
        | Op::Shl
        | Op::Shr
        | Op::And
        | Op::Or
        | Op::Xor
        | Op::Neg
        | Op::BitNot
        | Op::Not => op,
    }
}

pub(crate) fn is_comparison(op: Op) -> bool
    ensures { result ≡ compares op }
{
    matches!(op, Op::Lt | Op::Gt | Op::Le | Op::Ge | Op::Eq | Op::Ne)
}

/// Whether this is `!`.
pub(crate) fn is_not(op: Op) -> bool
    ensures { result ≡ negates op }
{
    matches!(op, Op::Not)
}
