//! Functions that are defined on one line: each is a body of its own.

use crate::text::{Row, first_other};

/// Names of the definition and of the body around it.
const DEFINITIONS: [Row; 18] = [
    (
        "10 DEF F(X) = X * 2 + F(1)\n20 DEF G$(A$, N) = A$(1:N) & STR$(F(N))\n30 PRINT F(1); G$(\"a\", 2)\n40 END\n",
        0,
        0,
    ),
    ("10 DIM A(3)\n20 DEF F(X) = A(X) + B\n30 END\n", 0, 0),
    (
        "10 DIM X(3)\n20 DEF F(X) = X + 1\n30 PRINT X(1)\n40 END\n",
        0,
        0,
    ),
    ("10 SUB P\n20 END SUB\n30 DEF F(P) = P\n40 END\n", 0, 0),
    ("10 EXTERNAL SUB S(X)\n20 DEF F = X\n30 END SUB\n", 0, 0),
    ("10 SUB P\n20 END SUB\n30 DEF F = P\n40 END\n", 30, 1),
    ("10 DEF F = P\n20 SUB P\n30 END SUB\n40 END\n", 20, 1),
    ("10 DEF F(F) = 1\n20 END\n", 10, 1),
    ("10 DIM A(3)\n20 DEF F = A\n30 END\n", 20, 2),
    ("10 DIM A(3)\n20 DEF F(X) = X + A(1, 2)\n30 END\n", 20, 2),
    ("10 DEF F(X) = X + \"a\"\n20 END\n", 10, 3),
    ("10 DEF F(X) = F\n20 END\n", 10, 11),
    ("10 DEF F = ABS\n20 END\n", 10, 12),
    ("10 DEF F$ = F$(1:2)\n20 END\n", 10, 16),
    ("10 DIM X(3)\n20 DEF F(X) = X(1)\n30 END\n", 20, 23),
    ("10 DEF F(A(,,,)) = 1\n20 END\n", 10, 14),
    ("10 DEF F(#0) = 1\n20 END\n", 10, 20),
    ("10 PRINT 1\n20 DEF F(X) = G(X)\n30 END\n", 20, 23),
];

#[test]
fn a_definition_is_a_body_of_its_own(rt: HostRuntime) {
    assert_eq!(rt; first_other(rt.alloc(), &DEFINITIONS), None);
}
