//! Programs, and what `go` answers to each.

use bas_drive::Status;

/// A file, the lines of its run, and what `go` answers to it.
#[derive(Clone, Copy)]
pub struct Case {
    pub text: &'static [u8],
    pub lines: &'static str,
    pub status: Status,
    pub output: &'static [u8],
    pub report: &'static [u8],
}

const COUNTING: &[u8] = b"10 DO WHILE I < 3\n20 LET I = I + 1\n30 LOOP\n40 PRINT I / 8\n50 END\n";

/// Programs that are accepted.
pub const PROGRAMS: [Case; 15] = [
    Case {
        text: b"10 LET A = 2\n20 LET B = A + 40\n30 PRINT B - 50\n40 END\n",
        lines: "100",
        status: Status::Ended,
        output: b"-8 \n",
        report: b"",
    },
    Case {
        text: COUNTING,
        lines: "10",
        status: Status::LinesSpent,
        output: b"",
        report: b"lines spent\n",
    },
    Case {
        text: COUNTING,
        lines: "11",
        status: Status::LinesSpent,
        output: b" .375 \n",
        report: b"lines spent\n",
    },
    Case {
        text: COUNTING,
        lines: "12",
        status: Status::Ended,
        output: b" .375 \n",
        report: b"",
    },
    Case {
        text: b"10 PRINT 99999999999999999999999999999999999999\n20 PRINT 99999999999999999999999999999999999999 + 1\n30 END\n",
        lines: "100",
        status: Status::Stopped,
        output: b" 99999999999999999999999999999999999999 \n",
        report: b"exception 1002 at line 20 of MAIN\n",
    },
    Case {
        text: b"10 PROGRAM LEDGER\n20 PRINT 1\n30 PRINT 1 / D\n40 END\n",
        lines: "100",
        status: Status::Stopped,
        output: b" 1 \n",
        report: b"exception 3001 at line 30 of LEDGER\n",
    },
    Case {
        text: b"10 REM one\n20 PROGRAM P\n30 END\n40 REM two\n",
        lines: "1",
        status: Status::Ended,
        output: b"",
        report: b"",
    },
    Case {
        text: b"10 REM one\n20\n30 ! three\n40 PRINT 4 ! behind\n50 END\n",
        lines: "4",
        status: Status::LinesSpent,
        output: b" 4 \n",
        report: b"lines spent\n",
    },
    Case {
        text: b"10 DO\n20 IF I = 0 THEN\n30 GOTO 60\n40 END IF\n50 LOOP\n60 PRINT 1\n70 END\n",
        lines: "5",
        status: Status::Ended,
        output: b" 1 \n",
        report: b"",
    },
    Case {
        text: b"10 DO\n20 LET I = I + 1\n30 IF I < 3 THEN\n40 GOTO 70\n50 END IF\n60 PRINT I\n70 LOOP WHILE I < 4\n80 END\n",
        lines: "21",
        status: Status::Ended,
        output: b" 3 \n 4 \n",
        report: b"",
    },
    Case {
        text: b"10 DO\n20 LET I = I + 1\n30 IF I < 3 THEN\n40 ELSE\n50 EXIT DO\n60 END IF\n70 LOOP\n80 PRINT I\n90 END\n",
        lines: "14",
        status: Status::Ended,
        output: b" 3 \n",
        report: b"",
    },
    Case {
        text: b"10 IF NOT (A = 0 OR 1 / A = 1) THEN\n20 PRINT 1\n30 ELSEIF A > 0 AND 1 / A = 1 THEN\n40 PRINT 2\n50 ELSE\n60 PRINT 3\n70 END IF\n80 END\n",
        lines: "4",
        status: Status::Ended,
        output: b" 3 \n",
        report: b"",
    },
    Case {
        text: b"10 let total = 7\r\n20 Pr&\r\n&int\tTOTAL * (Total - 9)\r\n\r\n30 end\r\n",
        lines: "3",
        status: Status::Ended,
        output: b"-14 \n",
        report: b"",
    },
    Case {
        text: b"10 PRINT\n20 GOTO 10\n30 END\n",
        lines: "5",
        status: Status::LinesSpent,
        output: b"\n\n\n",
        report: b"lines spent\n",
    },
    Case {
        text: b"1 END",
        lines: "0",
        status: Status::LinesSpent,
        output: b"",
        report: b"lines spent\n",
    },
];

/// A file that is refused, and its report.
#[derive(Clone, Copy)]
pub struct Refused {
    pub text: &'static [u8],
    pub report: &'static [u8],
}

/// Files that are refused.
pub const REFUSED: [Refused; 18] = [
    Refused {
        text: b"10 IF A = 0 THEN\n20 DO\n30 END IF\n40 LOOP\n50 END\n",
        report: b"a.bas: BadNest 30\n",
    },
    Refused {
        text: b"10 DO\n20 PRINT 1\n",
        report: b"a.bas: Unclosed 10\n",
    },
    Refused {
        text: b"",
        report: b"a.bas: NoUnit\n",
    },
    Refused {
        text: b"10 REM alone\n",
        report: b"a.bas: NoUnit\n",
    },
    Refused {
        text: b"10 GOTO 15\n20 END\n",
        report: b"a.bas: Rule 4 10\n",
    },
    Refused {
        text: b"10 GOTO 30\n20 DO\n30 PRINT\n40 LOOP\n50 END\n",
        report: b"a.bas: Rule 4 10\n",
    },
    Refused {
        text: b"10 EXIT DO\n20 END\n",
        report: b"a.bas: Rule 6 10\n",
    },
    Refused {
        text: b"10 PRINT 999999999999999999999999999999999999999\n20 END\n",
        report: b"a.bas: BadLine 10\n",
    },
    Refused {
        text: b"10 PRINT 1\nPRINT 2\n20 END\n",
        report: b"a.bas: Unnumbered 2\n",
    },
    Refused {
        text: b"20 PRINT 1\n10 END\n",
        report: b"a.bas: OutOfOrder 10\n",
    },
    Refused {
        text: b"10 PRINT 1\n10 END\n",
        report: b"a.bas: OutOfOrder 10\n",
    },
    Refused {
        text: b"10 LET PRINT = 1\n20 END\n",
        report: b"a.bas: BadLine 10\n",
    },
    Refused {
        text: b"10 GOTO 99\n20 PRINT \"red\"\n30 END\n",
        report: b"a.bas: BadLine 20\n",
    },
    Refused {
        text: b"10 PROGRAM P(X)\n20 END\n",
        report: b"a.bas: BadLine 10\n",
    },
    Refused {
        text: b"10 END\n20 REM two\n30 PROGRAM P\n40 END\n",
        report: b"a.bas: BadLine 30\n",
    },
    Refused {
        text: b"10 EXTERNAL SUB P\n20 END SUB\n",
        report: b"a.bas: BadLine 10\n",
    },
    Refused {
        text: b"10 PRINT 1\n20 END\n30 PRINT 2\n",
        report: b"a.bas: Unclosed 30\n",
    },
    Refused {
        text: b"10 PRINT @\n5 END\n",
        report: b"a.bas: BadLine 10\n",
    },
];
