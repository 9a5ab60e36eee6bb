use crate::answer::{Answer, answer_to};
use plcr_dwarf_expr::ExprFault;
use std::test::Fail;

#[test]
fn lines_are_answered(rt: HostRuntime) -> Result<(), Fail> {
    let rows = [
        ("x86_64 8192 0805311c -", Answer::Value(4)),
        ("x86_64 8192 - 7", Answer::Value(7)),
        ("x86_64 8192 - -", Answer::Fault(ExprFault::Underflow)),
        ("x86_64 8192 51 - 3=17", Answer::Value(17)),
        ("arm64 8192 6f - 31=9 3=1", Answer::Value(9)),
        ("x86_64 8192 94 8192", Answer::Fault(ExprFault::Truncated)),
        ("x86_64 8192 9401 8192", Answer::Value(0x94)),
        ("x86_64 18446744073709551615 3536 -", Answer::Value(6)),
        ("x86_64 18446744073709551614 10ff7f -", Answer::Value(16383)),
        ("x86_64 18446744073709551614 3536 -", Answer::Value(6)),
        ("x86_64 8192 3 -", Answer::NoExpression),
        ("x86_64 8192 35", Answer::NoExpression),
        ("x86_64 8192 35 - 34=1", Answer::NoExpression),
        ("mips 8192 35 -", Answer::NoExpression),
        ("", Answer::NoExpression),
    ];
    for (line, want) in rows {
        assert_eq!(rt; answer_to(rt.alloc(), line)?, want, "{line}");
    }
    Ok(())
}
