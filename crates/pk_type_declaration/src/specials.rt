// The special names.

ghost use Rattle.std.specs.Prelude.{◌≡◌};
ghost use Rattle.pk_type_declaration.specs.Specials as definitions;

use pk_ctypes::{IntType, look_up};
use pk_type_scope::Callee;

const SPECIALS: [(&[u8], Callee); 13] = [
    (b"abort", Callee::Abort),
    (b"__VERIFIER_assume", Callee::Assume),
    (b"__pikos_assert", Callee::Assert),
    (b"__VERIFIER_nondet_char", Callee::Any(IntType::Char)),
    (b"__VERIFIER_nondet_uchar", Callee::Any(IntType::UChar)),
    (b"__VERIFIER_nondet_short", Callee::Any(IntType::Short)),
    (b"__VERIFIER_nondet_ushort", Callee::Any(IntType::UShort)),
    (b"__VERIFIER_nondet_int", Callee::Any(IntType::Int)),
    (b"__VERIFIER_nondet_uint", Callee::Any(IntType::UInt)),
    (b"__VERIFIER_nondet_long", Callee::Any(IntType::Long)),
    (b"__VERIFIER_nondet_ulong", Callee::Any(IntType::ULong)),
    (b"__VERIFIER_nondet_longlong", Callee::Any(IntType::LLong)),
    (b"__VERIFIER_nondet_ulonglong", Callee::Any(IntType::ULLong)),
];

/// What a call of a special name is, where the name is one.
#[tactic(auto, unfolding(crate::specs::Specials::special))]
pub fn special(name: &[u8]) -> Option<Callee>
    ensures { result ≡ definitions.special name.now }
{
    look_up(&SPECIALS, name)
}
