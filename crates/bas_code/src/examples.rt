ghost use Rattle.std.specs.Prelude.{◌≡◌, Some, None, [], ◌∷◌, codes};
ghost use Rattle.bas_mean.specs.Outcome.{Ended, Stopped, GoesOn};
ghost use Rattle.bas_mean.specs.Programs.{terminal_with};
ghost use Rattle.bas_code.specs.Images.{
  run_for,
  image_of,
  counting_body,
  jump_out_body,
  jump_to_loop_body,
  early_exit_body,
  zero_divisor_body,
  cut_short_body,
};

/// The image of a counting loop that prints: with 12 lines it ends, with 11 it has printed and goes
/// on, with 10 it has printed nothing. Fifty steps are not enough for it.
#[tactic(auto, using(crate::proofs::Computed::loop_runs))]
pub fn loop_image_runs()
    ensures ten { run_for (image_of counting_body) 200 10 ≡ Some (GoesOn (record { left = 0; terminal = terminal_with [] })) }
    ensures eleven { run_for (image_of counting_body) 200 11 ≡ Some (GoesOn (record { left = 0; terminal = terminal_with (codes " .375 " ∷ []) })) }
    ensures twelve { run_for (image_of counting_body) 200 12 ≡ Some (Ended (record { left = 0; terminal = terminal_with (codes " .375 " ∷ []) })) }
    ensures unfinished { run_for (image_of counting_body) 50 12 ≡ None }
{}

/// The images of a jump out of two blocks, a jump to a `LOOP` line and an `EXIT DO`.
#[tactic(auto, using(crate::proofs::Computed::jumps_run))]
pub fn jump_images_run()
    ensures out { run_for (image_of jump_out_body) 200 5 ≡ Some (Ended (record { left = 0; terminal = terminal_with (codes " 1 " ∷ []) })) }
    ensures to_loop { run_for (image_of jump_to_loop_body) 200 21 ≡ Some (Ended (record { left = 0; terminal = terminal_with (codes " 3 " ∷ codes " 4 " ∷ []) })) }
    ensures early { run_for (image_of early_exit_body) 200 14 ≡ Some (Ended (record { left = 0; terminal = terminal_with (codes " 3 " ∷ []) })) }
{}

/// The images of a division by zero and of conditions that are cut short.
#[tactic(auto, using(crate::proofs::Computed::others_run))]
pub fn other_images_run()
    ensures divided { run_for (image_of zero_divisor_body) 200 9 ≡ Some (Stopped (record { number = 3001; line = 20; unit = codes "MAIN" }) (record { left = 7; terminal = terminal_with (codes " 1 " ∷ []) })) }
    ensures cut { run_for (image_of cut_short_body) 200 4 ≡ Some (Ended (record { left = 0; terminal = terminal_with (codes " 3 " ∷ []) })) }
{}
