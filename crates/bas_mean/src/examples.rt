ghost use Rattle.std.specs.Prelude.{◌≡◌, ◌-◌, ◌^◌, [], ◌∷◌, codes, true};
ghost use Rattle.bas_mean.specs.Meaning.{mean};
ghost use Rattle.bas_mean.specs.Outcome.{Ended, Stopped, GoesOn};
ghost use Rattle.bas_mean.specs.Built.{are_built};
ghost use Rattle.bas_mean.specs.Programs.{
  counting_loop,
  jump_out,
  jump_to_loop,
  early_exit,
  zero_divisor,
  cut_short,
  greatest_number,
  remarked,
  terminal_with,
};

/// `10 DO WHILE I < 3`, `20 LET I = I + 1`, `30 LOOP`, `40 PRINT I / 8`, `50 END`: with 12 lines it
/// prints ` .375 ` and ends, with 11 it has printed and goes on, with 10 it has printed nothing.
#[tactic(auto, using(crate::proofs::Computed::counting))]
pub fn loop_takes_twelve_lines()
    ensures built { are_built counting_loop ≡ true }
    ensures ten { mean counting_loop 10 [] ≡ GoesOn (record { left = 0; terminal = terminal_with [] }) }
    ensures eleven { mean counting_loop 11 [] ≡ GoesOn (record { left = 0; terminal = terminal_with (codes " .375 " ∷ []) }) }
    ensures twelve { mean counting_loop 12 [] ≡ Ended (record { left = 0; terminal = terminal_with (codes " .375 " ∷ []) }) }
    ensures many { mean counting_loop 1000000000 [] ≡ Ended (record { left = 999999988; terminal = terminal_with (codes " .375 " ∷ []) }) }
{}

/// A `GOTO` out of an `IF` and a `DO` goes on at its line.
#[tactic(auto, using(crate::proofs::Computed::jumped_out))]
pub fn goto_leaves_two_blocks()
    ensures { mean jump_out 5 [] ≡ Ended (record { left = 0; terminal = terminal_with (codes " 1 " ∷ []) }) }
{}

/// A `GOTO` to the `LOOP` line goes on there, inside the loop.
#[tactic(auto, using(crate::proofs::Computed::jumped_to_loop))]
pub fn goto_reaches_the_loop_line()
    ensures { mean jump_to_loop 21 [] ≡ Ended (record { left = 0; terminal = terminal_with (codes " 3 " ∷ codes " 4 " ∷ []) }) }
{}

/// `EXIT DO` goes on behind `LOOP`.
#[tactic(auto, using(crate::proofs::Computed::exited))]
pub fn exit_leaves_the_loop()
    ensures { mean early_exit 14 [] ≡ Ended (record { left = 0; terminal = terminal_with (codes " 3 " ∷ []) }) }
{}

/// A division by zero stops the run at its line, after what was printed before.
#[tactic(auto, using(crate::proofs::Computed::divided_by_zero))]
pub fn division_stops_at_its_line()
    ensures { mean zero_divisor 9 [] ≡ Stopped (record { number = 3001; line = 20; unit = codes "MAIN" }) (record { left = 7; terminal = terminal_with (codes " 1 " ∷ []) }) }
{}

/// `OR` stops at the first condition that holds and `AND` at the first that does not, so that the
/// division by zero behind them is not made.
#[tactic(auto, using(crate::proofs::Computed::was_cut_short))]
pub fn condition_is_cut_short()
    ensures { mean cut_short 4 [] ≡ Ended (record { left = 0; terminal = terminal_with (codes " 3 " ∷ []) }) }
{}

/// The greatest number is printed, and one more is an overflow.
#[tactic(auto, using(crate::proofs::Computed::printed_greatest))]
pub fn greatest_number_is_printed()
    ensures { mean greatest_number 9 [] ≡ Stopped (record { number = 1002; line = 20; unit = codes "MAIN" }) (record { left = 7; terminal = terminal_with (codes " 99999999999999999999999999999999999999 " ∷ []) }) }
{}

/// `10 PROGRAM P`, `20 REM first`, `30`, `40 PRINT 1`, `50 END`: the remark and the empty line take a
/// line each, the `PROGRAM` line takes none.
#[tactic(auto, using(crate::proofs::Computed::remarks_taken))]
pub fn remarks_take_lines()
    ensures built { are_built remarked ≡ true }
    ensures two { mean remarked 2 [] ≡ GoesOn (record { left = 0; terminal = terminal_with [] }) }
    ensures four { mean remarked 4 [] ≡ Ended (record { left = 0; terminal = terminal_with (codes " 1 " ∷ []) }) }
{}
