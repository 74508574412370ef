//! Units of many lines that keep all rules.

use crate::text::fault_of;

const LEDGER: &str = "10 PROGRAM LEDGER\n\
    20 DECLARE PUBLIC NUMERIC FEE*4.2\n\
    30 DECLARE NUMERIC B*12.2, V*12.2\n\
    40 OPEN #1: NAME \"acct.dat\", ORGANIZATION KEYED, RECTYPE INTERNAL\n\
    50 OPEN #2: NAME \"jrnl.dat\", ORGANIZATION RELATIVE, RECTYPE INTERNAL\n\
    60 FOR I = 1 TO 3\n\
    70 WRITE #1, KEY = \"A\" & STR$(I): \"A\" & STR$(I), 0\n\
    80 NEXT I\n\
    90 DO UNTIL DONE = 1\n\
    100 WHEN EXCEPTION USE NOACCT\n\
    110 INPUT PROMPT \"\": K$, V\n\
    120 READ #1, KEY = K$: K$, B\n\
    130 LET B = B + V - FEE\n\
    140 REWRITE #1, SAME: K$, B\n\
    150 LET N = N + 1\n\
    160 WRITE #2, RECORD N: K$, V\n\
    170 END WHEN\n\
    180 LOOP\n\
    190 SET #1: POINTER BEGIN\n\
    200 DO\n\
    210 READ #1, NEXT, IF MISSING THEN EXIT DO: K$, B\n\
    220 PRINT USING \"<### -####.##\": K$, B\n\
    230 LET T = T + B\n\
    240 LOOP\n\
    250 PRINT N; M; T\n\
    260 HANDLER NOACCT\n\
    270 IF EXTYPE = 7305 THEN LET M = M + 1 ELSE LET DONE = 1\n\
    280 END HANDLER\n\
    290 END\n";

const RATES: &str = "10 MODULE RATES\n\
    20 PUBLIC NUMERIC FEE*4.2\n\
    30 LET FEE = .25\n\
    40 END MODULE\n";

const ADDTAX: &str = "10 EXTERNAL SUB ADDTAX(A)\n\
    20 DECLARE NUMERIC A*10.2\n\
    30 LET A = A + 1\n\
    40 END SUB\n";

const BANK: &str = "10 REM a module with procedures of all kinds\n\
    20 MODULE BANK\n\
    30 OPTION ARITHMETIC FIXED*12.2\n\
    40 PUBLIC STRING OWNER$(9)*20\n\
    50 SHARE NUMERIC BALANCE(9)*12.2\n\
    60 PRIVATE CHECKED\n\
    70 LET BALANCE(1) = CHECKED(100)\n\
    80 CALL DEPOSIT(2, 5)\n\
    90 DATA 1, 2\n\
    100 EXTERNAL SUB DEPOSIT(I, V)\n\
    110 CALL CREDIT(BALANCE, V)\n\
    120 RESTORE 90\n\
    130 SUB CREDIT(B(), V)\n\
    140 LET B(I) = B(I) + CHECKED(V)\n\
    150 HANDLER H\n\
    160 EXIT HANDLER\n\
    170 END HANDLER\n\
    180 END SUB\n\
    190 END SUB\n\
    200 REM between two procedures\n\
    210 EXTERNAL FUNCTION CHECKED(V)\n\
    220 IF V < 0 THEN CAUSE EXCEPTION 100\n\
    230 LET CHECKED = V\n\
    240 PRINT OWNER$(1)(1:3)\n\
    250 END FUNCTION\n\
    260 END MODULE\n";

const NESTED_HANDLERS: &str = "10 WHEN EXCEPTION IN\n\
    20 WHEN EXCEPTION IN\n\
    30 DO WHILE T < 2\n\
    40 LET T = T + 1\n\
    50 LET Q = 4 / Z\n\
    60 PRINT Q; T\n\
    70 LOOP\n\
    80 USE\n\
    90 PRINT \"in\"\n\
    100 EXIT HANDLER\n\
    110 END WHEN\n\
    120 USE\n\
    130 LET Z = 2\n\
    140 RETRY\n\
    150 END WHEN\n\
    160 END\n";

const KEYED: &str = "10 OPEN #1: NAME \"k.dat\", ORGANIZATION KEYED, RECTYPE INTERNAL\n\
    20 FOR I = 5000 TO 1 STEP -1\n\
    30 WRITE #1, KEY = STR$(100000 + I): I\n\
    40 NEXT I\n\
    50 DELETE #1, KEY = \"105000\"\n\
    60 SET #1: POINTER BEGIN\n\
    70 DO\n\
    80 READ #1, NEXT, IF MISSING THEN EXIT DO: V\n\
    90 LET N = N + 1\n\
    100 IF V <> N THEN PRINT \"order\"; V\n\
    110 LOOP\n\
    120 PRINT N\n\
    130 WRITE #1, KEY = \"100001\", IF THERE THEN 140: 0\n\
    140 END\n";

const EXTERNAL_FUNCTION: &str = "10 DECLARE EXTERNAL FUNCTION F\n\
    20 WHEN EXCEPTION IN\n\
    30 PRINT F(0)\n\
    40 USE\n\
    50 PRINT EXTYPE; EXLINE\n\
    60 END WHEN\n\
    70 END\n";

const SUBSTRINGS: &str = "10 LET A$ = \" abC \"\n\
    20 LET B$ = LTRIM$(RTRIM$(A$))\n\
    30 PRINT UCASE$(B$), LCASE$(B$(0:2)); TAB(22); REPEAT$(\"-\", 3)\n\
    40 END\n";

const BY_REFERENCE: &str = "10 DIM A(3)\n\
    20 CALL P(A(2), A(2))\n\
    30 PRINT A(2)\n\
    40 SUB P(X, Y)\n\
    50 LET X = 5\n\
    60 LET Y = Y + X\n\
    70 END SUB\n\
    80 END\n";

const DATA: &str = "10 READ A, B$\n\
    20 PRINT A; B$\n\
    30 READ A\n\
    40 DATA 5, \"x,y\"\n\
    50 END\n";

const EVERY_STATEMENT: &str = "10 PROGRAM P(N, N$) ! with formals\n\
    20 OPTION BASE 0\n\
    30 DIM A(3, 2 TO 4)*8.2, B$(5)*10\n\
    40 SELECT CASE N$\n\
    50 CASE \"a\", \"c\" TO \"e\", IS > \"x\"\n\
    60 ON N GOSUB 200, 210 ELSE RETURN\n\
    70 CASE ELSE\n\
    80 LINE INPUT PROMPT N$: B$(0), N$\n\
    90 END SELECT\n\
    100 IF N = 1 AND (N$ = \"\" OR NOT RND < .5) THEN\n\
    110 PRINT #2, USING \"## #\": N, N; N;\n\
    120 ELSEIF N > 2 THEN\n\
    130 CALL S(A, B$(1), (N), #2)\n\
    140 ELSE\n\
    150 PRINT #3\n\
    160 INPUT #3, IF MISSING THEN 210: A(0, 2), N\n\
    170 END IF\n\
    180 CAUSE EXCEPTION 100\n\
    190 RESTORE 220\n\
    200 CLOSE #2\n\
    210 STOP\n\
    220 DATA 1, \"a\"\n\
    230 DEF G$(X$, Y) = X$(Y:2) & \"a\"\n\
    240 FUNCTION F(X)\n\
    250 LET F = X ^ 2\n\
    260 IF F(1) = 1 THEN EXIT FUNCTION\n\
    270 END FUNCTION\n\
    280 SUB S(X(,), Y$, Z, #7)\n\
    290 DECLARE NUMERIC X*8.2\n\
    300 DECLARE STRING Y$*10\n\
    310 WHEN EXCEPTION USE H\n\
    320 PRINT #7: X(1, 2), G$(Y$, 1); F(Z); UBOUND(X, 2)\n\
    330 END WHEN\n\
    340 HANDLER H\n\
    350 CONTINUE\n\
    360 END HANDLER\n\
    370 END SUB\n\
    380 END\n";

/// Units that keep all rules.
const UNITS: [&str; 11] = [
    LEDGER,
    RATES,
    ADDTAX,
    BANK,
    NESTED_HANDLERS,
    KEYED,
    EXTERNAL_FUNCTION,
    SUBSTRINGS,
    BY_REFERENCE,
    DATA,
    EVERY_STATEMENT,
];

#[test]
fn whole_units_keep_all_rules(rt: HostRuntime) {
    for text in UNITS {
        assert_eq!(rt; fault_of(rt.alloc(), text.as_bytes()), (0, 0), "{text}");
    }
}
