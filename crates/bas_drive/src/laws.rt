//! The table of answers, row by row: when each status is the answer to the words.
ghost use Rattle.std.specs.Prelude.{◌≡◌, ◌↔◌, ◌⊎◌, ◌<◌, ◌≤◌, ℕ, List, [], ◌∷◌, ◌++◌, length, None, Some, Ok, Err, codes};
ghost use Rattle.std.specs.FinMap.{get};
ghost use Rattle.bas_world.specs.Files.{Files};
ghost use Rattle.bas_ast.specs.Tree.{Program, SourceUnit};
ghost use Rattle.bas_mean.specs.Meaning.{first_program, mean};
ghost use Rattle.bas_mean.specs.Outcome as run;
ghost use Rattle.bas_mean.specs.Outcome.{Exception};
ghost use Rattle.bas_mean.specs.World.{Seen};
ghost use Rattle.bas_gen.specs.Generated.{IsWithin};
ghost use Rattle.bas_accept.specs.Accepted.{accepted_of};
ghost use Rattle.bas_accept.specs.declared.acceptance.Refusal.{Refusal};
ghost use Rattle.bas_accept.specs.declared.acceptance.Refusal.TheVariants as refusal;
ghost use Rattle.bas_block.specs.declared.file.SourceFault.TheVariants as fault;
ghost use Rattle.bas_drive.specs.declared.top.TheConstants.{SOURCE_BYTES};
ghost use Rattle.bas_drive.specs.declared.words.TheConstants.{WORD_NAME_BYTES, LINES_DIGITS, DEFAULT_LINES};
ghost use Rattle.bas_drive.specs.Answer.{command_of, answer_of, file_answer, run_answer};
ghost use Rattle.bas_drive.specs.Ending.{without_output};
ghost use Rattle.bas_drive.specs.Report.{status_of, report_of};
ghost use Rattle.bas_drive.specs.declared.words.Command.TheVariants.{Go};
ghost use Rattle.bas_drive.specs.declared.ending.Ending.TheVariants as ends;
ghost use Rattle.bas_drive.specs.declared.status.Status.TheVariants as status;

use bas_accept::{accepted_law, sound_program_law};
use bas_execute::sound_program_is_not_lost;

/// The answer is Usage exactly if the command line is not valid.
pub fn usage_is_for_no_command()
    ensures { (words : List (List ℕ)) (files : Files) (input : List ℕ) →
        (status_of (answer_of words files input).ending ≡ status.Usage) ↔ (command_of words ≡ None) }
{}

/// The answer to `go` is FileMissing exactly if the file is not there.
pub fn missing_is_for_no_file()
    ensures { (words : List (List ℕ)) (files : Files) (input name : List ℕ) (lines : ℕ) →
        command_of words ≡ Some (Go name lines) →
        (status_of (answer_of words files input).ending ≡ status.FileMissing) ↔ (get files name ≡ None) }
{}

/// The answer to `go` for a file of too many bytes is TooLarge, with its size.
pub fn large_files_are_told()
    ensures { (words : List (List ℕ)) (files : Files) (input name bytes : List ℕ) (lines : ℕ) →
        command_of words ≡ Some (Go name lines) → get files name ≡ Some bytes → SOURCE_BYTES < length bytes →
        answer_of words files input ≡ without_output (ends.FileTooLarge name (length bytes)) }
{}

/// The answer to `go` for a file that is not too large is SourceRefused exactly where the file is not
/// accepted, and it tells the first refusal.
pub fn refused_is_for_not_accepted()
    ensures exactly { (words : List (List ℕ)) (files : Files) (input name bytes : List ℕ) (lines : ℕ) →
        command_of words ≡ Some (Go name lines) → get files name ≡ Some bytes → length bytes ≤ SOURCE_BYTES →
        (status_of (answer_of words files input).ending ≡ status.SourceRefused) ↔ ((r : Refusal) × (accepted_of bytes ≡ Err r)) }
    ensures told { (words : List (List ℕ)) (files : Files) (input name bytes : List ℕ) (lines : ℕ) (r : Refusal) →
        command_of words ≡ Some (Go name lines) → get files name ≡ Some bytes → length bytes ≤ SOURCE_BYTES → accepted_of bytes ≡ Err r →
        answer_of words files input ≡ without_output (ends.Refused name r) }
{
    accepted_law();
    sound_program_law();
}

/// The answer to `go` for an accepted file whose program is within the limits is what its units mean
/// for that number of lines.
pub fn programs_mean_their_answer()
    ensures { (words : List (List ℕ)) (files : Files) (input name bytes : List ℕ) (lines : ℕ) (units : List SourceUnit) (p : Program) →
        command_of words ≡ Some (Go name lines) → get files name ≡ Some bytes → length bytes ≤ SOURCE_BYTES →
        accepted_of bytes ≡ Ok units → first_program units ≡ Some p → IsWithin p →
        answer_of words files input ≡ run_answer (mean units lines input) }
{}

/// The answer to `go` for an accepted file is TooLarge exactly where its program is not within the
/// limits.
pub fn too_large_is_for_passed_limits()
    ensures { (words : List (List ℕ)) (files : Files) (input name bytes : List ℕ) (lines : ℕ) (units : List SourceUnit) (p : Program) →
        command_of words ≡ Some (Go name lines) → get files name ≡ Some bytes → length bytes ≤ SOURCE_BYTES →
        accepted_of bytes ≡ Ok units → first_program units ≡ Some p →
        (status_of (answer_of words files input).ending ≡ status.TooLarge) ↔ (IsWithin p → ⊥) }
{}

/// Units that are accepted end, are stopped or go on for each number of lines and each input, and
/// the status says which.
pub fn statuses_tell_ends()
    ensures ended { (bytes input : List ℕ) (lines : ℕ) (units : List SourceUnit) → accepted_of bytes ≡ Ok units →
        (status_of (run_answer (mean units lines input)).ending ≡ status.Ended) ↔ ((seen : Seen) × (mean units lines input ≡ run.Ended seen)) }
    ensures stopped { (bytes input : List ℕ) (lines : ℕ) (units : List SourceUnit) → accepted_of bytes ≡ Ok units →
        (status_of (run_answer (mean units lines input)).ending ≡ status.Stopped) ↔ ((x : Exception) × (seen : Seen) × (mean units lines input ≡ run.Stopped x seen)) }
    ensures spent { (bytes input : List ℕ) (lines : ℕ) (units : List SourceUnit) → accepted_of bytes ≡ Ok units →
        (status_of (run_answer (mean units lines input)).ending ≡ status.LinesSpent) ↔ ((seen : Seen) × (mean units lines input ≡ run.GoesOn seen)) }
{
    accepted_law();
    sound_program_law();
    sound_program_is_not_lost();
}

/// Worked words.
pub fn worked_words()
    ensures no_words { command_of [] ≡ None }
    ensures go { command_of (codes "go" ∷ codes "none.bas" ∷ []) ≡ Some (Go (codes "none.bas") 1000000000) }
    ensures lines { command_of (codes "go" ∷ codes "a.bas" ∷ codes "--lines" ∷ codes "012" ∷ []) ≡ Some (Go (codes "a.bas") 12) }
    ensures joined { command_of (codes "go" ∷ codes "a.bas" ∷ codes "--lines=12" ∷ []) ≡ None }
    ensures missing { (input : List ℕ) → file_answer (codes "none.bas") 1 input None ≡ without_output (ends.Missing (codes "none.bas")) }
{}

/// Worked report lines.
pub fn worked_reports()
    ensures stop { report_of (ends.Stopped (record { ex = 3001; line = 20; unit = codes "MAIN" })) ≡ codes "exception 3001 at line 20 of MAIN" ++ 10 ∷ [] }
    ensures spent { report_of ends.LinesSpent ≡ codes "lines spent" ++ 10 ∷ [] }
    ensures usage { report_of ends.Usage ≡ codes "usage: fullbasic check, compile, link, run, go, list or demo" ++ 10 ∷ [] }
    ensures missing { report_of (ends.Missing (codes "none.bas")) ≡ codes "none.bas: missing" ++ 10 ∷ [] }
    ensures long { report_of (ends.Refused (codes "a.bas") (refusal.Source (fault.TooLong 2))) ≡ codes "a.bas: TooLong 2" ++ 10 ∷ [] }
    ensures unnumbered { report_of (ends.Refused (codes "a.bas") (refusal.Source (fault.Unnumbered 2))) ≡ codes "a.bas: Unnumbered 2" ++ 10 ∷ [] }
    ensures order { report_of (ends.Refused (codes "a.bas") (refusal.Source (fault.OutOfOrder 10))) ≡ codes "a.bas: OutOfOrder 10" ++ 10 ∷ [] }
    ensures bad_line { report_of (ends.Refused (codes "a.bas") (refusal.Source (fault.BadLine 20))) ≡ codes "a.bas: BadLine 20" ++ 10 ∷ [] }
    ensures unclosed { report_of (ends.Refused (codes "a.bas") (refusal.Source (fault.Unclosed 10))) ≡ codes "a.bas: Unclosed 10" ++ 10 ∷ [] }
    ensures nest { report_of (ends.Refused (codes "a.bas") (refusal.Source (fault.BadNest 30))) ≡ codes "a.bas: BadNest 30" ++ 10 ∷ [] }
    ensures no_unit { report_of (ends.Refused (codes "a.bas") (refusal.Source fault.NoUnit)) ≡ codes "a.bas: NoUnit" ++ 10 ∷ [] }
    ensures rule { report_of (ends.Refused (codes "a.bas") (refusal.Rule 4 10)) ≡ codes "a.bas: Rule 4 10" ++ 10 ∷ [] }
    ensures file { report_of (ends.FileTooLarge (codes "a.bas") 1048577) ≡ codes "a.bas: too large 1048577 1048576" ++ 10 ∷ [] }
    ensures body { report_of (ends.UnitTooLarge (codes "MAIN") 65536 65535) ≡ codes "MAIN: too large 65536 65535" ++ 10 ∷ [] }
{}

/// The limits that the definitions take from the code.
pub fn limits()
    ensures source_file { SOURCE_BYTES ≡ 1048576 }
    ensures word_name { WORD_NAME_BYTES ≡ 64 }
    ensures lines_digits { LINES_DIGITS ≡ 12 }
    ensures default_lines { DEFAULT_LINES ≡ 1000000000 }
{}
