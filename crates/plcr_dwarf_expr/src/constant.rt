ghost use Rattle.std.specs.Prelude.{◌≡◌};
ghost use Rattle.plcr_dwarf_expr.specs.Words.{constant_value};

use crate::operation::Constant;

/// What the constant pushes.
pub fn value_of(constant: Constant) -> u64
    ensures { result ≡ constant_value constant }
{
    match constant {
        Constant::Addr(value)
        | Constant::Const8u(value)
        | Constant::Constu(value)
        | Constant::Consts(value) => value,
        Constant::Const1u(value) | Constant::Lit(value) => u64::from(value),
        Constant::Const2u(value) => u64::from(value),
        Constant::Const4u(value) => u64::from(value),
        Constant::Const1s(value) => i64::from(value).cast_unsigned(),
        Constant::Const2s(value) => i64::from(value).cast_unsigned(),
        Constant::Const4s(value) => i64::from(value).cast_unsigned(),
        Constant::Const8s(value) => value.cast_unsigned(),
    }
}
