ghost use Rattle.std.specs.Prelude.{◌≡◌, ℕ, List, ◌≢◌, ◌≤◌, ◌<◌, ◌↔◌, ◌⊎◌, false, length, map, string_bytes, IfOk, IfSome, IsTrue, Some, None};
ghost use Rattle.std.specs.FinMap.{get};
ghost use Rattle.bas_world.specs.Count.{CountMoves, Rose};
ghost use Rattle.bas_world.specs.Files.{size_of};
ghost use Rattle.bas_accept.specs.Accepted.{accepted_of};
ghost use Rattle.bas_vm.specs.Took.{TookAll};
ghost use Rattle.bas_drive.specs.Answer.{command_of, command_answer, name_of, source_answer, file_answer, answer_of, FileEnding, CanEnd};
ghost use Rattle.bas_drive.specs.Report.{report_of};
ghost use Rattle.bas_drive.specs.Headline.{IsAnswered, AnswersOrGivesUp, can_be, tells_fault, IsTold, IsIdle, TookReportPrefix, TookLineOf};
ghost use Rattle.bas_drive.specs.Ending.{RunOf, is_output_fault, is_store_fault, store_ending, refused_ending};

use crate::ending::Ending;
use crate::file::read_file;
use crate::report::write_report;
use crate::run::run_units;
use crate::status::Status;
use crate::words::{Command, command_of};
use bas_accept::{Refusal, accepted};
use bas_base::FileName;
use bas_block::SourceFault;
use bas_world::{Sink, Source, Store, StoreFail};
use std::alloc::Global;

/// The most bytes of a source file.
pub const SOURCE_BYTES: usize = 1_048_576;

// The ending of a command whose store failed.
fn store_ending(fail: StoreFail) -> Ending
    ensures { result ≡ store_ending fail }
{
    match fail {
        StoreFail::Failed => Ending::StoreFault,
        StoreFail::Memory => Ending::Memory,
    }
}

// The ending of a command whose file is refused.
fn refused(name: FileName, refusal: Refusal) -> Ending
    ensures { result ≡ refused_ending name refusal }
{
    match refusal {
        Refusal::Source(SourceFault::Memory) => Ending::Memory,
        _ => Ending::Refused(name, refusal),
    }
}

// Runs the program that the bytes of a file are, or refuses them.
fn run_source<O: Sink>(
    alloc: Global,
    name: FileName,
    bytes: &[u8],
    lines: u64,
    out: &mut O,
) -> Ending
    ensures does { (input : List ℕ) → RunOf (source_answer name lines input (accepted_of bytes.now)) (O.taken out.old) (O.taken out.new) result }
    ensures counted { CountMoves (is_output_fault result) (O.faults out.old) (O.faults out.new) }
    ensures store { is_store_fault result ≡ false }
{
    match accepted(alloc, bytes) {
        Ok(units) => run_units(alloc, name, units.as_slice(), lines, out),
        Err(refusal) => refused(name, refusal),
    }
}

// Reads a file of that size, and runs it.
#[tactic(auto, using(crate::proofs::Endings::source_can_end, crate::proofs::Endings::large_can_end, crate::proofs::Endings::store_can_end))]
fn run_sized<S: Store, O: Sink>(
    alloc: Global,
    name: FileName,
    size: u64,
    lines: u64,
    store: &mut S,
    out: &mut O,
) -> Ending
    requires short { length name ≤ S.longest store.old }
    requires size { IfSome (S.files store.old) (λ files. size_of files name ≡ Some size) }
    ensures does { IfSome (S.files store.old) (λ files. (input : List ℕ) →
        RunOf (file_answer name lines input (get files name)) (O.taken out.old) (O.taken out.new) result) }
    ensures output { CountMoves (is_output_fault result) (O.faults out.old) (O.faults out.new) }
    ensures store { CountMoves (is_store_fault result) (S.faults store.old) (S.faults store.new) }
    ensures unchanged { S.files store.new ≡ S.files store.old }
    ensures ends { FileEnding name lines result }
    ensures longest { S.longest store.new ≡ S.longest store.old }
{
    if size > SOURCE_BYTES as u64 {
        return Ending::FileTooLarge(name, size);
    }
    match read_file(alloc, store, name, size as usize) {
        Ok(bytes) => run_source(alloc, name, bytes.as_slice(), lines, out),
        Err(fail) => store_ending(fail),
    }
}

// Runs the program in a file.
#[tactic(auto, using(crate::proofs::Endings::missing_can_end, crate::proofs::Endings::store_can_end))]
fn go<S: Store, O: Sink>(
    alloc: Global,
    name: FileName,
    lines: u64,
    store: &mut S,
    out: &mut O,
) -> Ending
    requires { length name ≤ S.longest store.old }
    ensures does { IfSome (S.files store.old) (λ files. (input : List ℕ) →
        RunOf (file_answer name lines input (get files name)) (O.taken out.old) (O.taken out.new) result) }
    ensures output { CountMoves (is_output_fault result) (O.faults out.old) (O.faults out.new) }
    ensures store { CountMoves (is_store_fault result) (S.faults store.old) (S.faults store.new) }
    ensures unchanged { S.files store.new ≡ S.files store.old }
    ensures ends { FileEnding name lines result }
    ensures longest { S.longest store.new ≡ S.longest store.old }
{
    match store.size(name) {
        Ok(None) => Ending::Missing(name),
        Ok(Some(size)) => run_sized(alloc, name, size, lines, store, out),
        Err(fail) => store_ending(fail),
    }
}

// Does what a command asks.
fn run_command<S: Store, O: Sink>(
    alloc: Global,
    command: Command,
    store: &mut S,
    out: &mut O,
) -> Ending
    requires { length (name_of command) ≤ S.longest store.old }
    ensures does { IfSome (S.files store.old) (λ files. (input : List ℕ) →
        RunOf (command_answer (Some command) files input) (O.taken out.old) (O.taken out.new) result) }
    ensures output { CountMoves (is_output_fault result) (O.faults out.old) (O.faults out.new) }
    ensures store { CountMoves (is_store_fault result) (S.faults store.old) (S.faults store.new) }
    ensures unchanged { S.files store.new ≡ S.files store.old }
    ensures ends { CanEnd (Some command) result }
    ensures longest { S.longest store.new ≡ S.longest store.old }
{
    match command {
        Command::Go(name, lines) => go(alloc, name, lines, store, out),
    }
}

// Does what the words ask, and leaves the report to be written.
fn perform<S: Store, O: Sink>(alloc: Global, words: &[String], store: &mut S, out: &mut O) -> Ending
    requires { S.longest store.old ≡ 68 }
    ensures does { IfSome (S.files store.old) (λ files. (input : List ℕ) →
        RunOf (answer_of (map string_bytes words.now) files input) (O.taken out.old) (O.taken out.new) result) }
    ensures output { CountMoves (is_output_fault result) (O.faults out.old) (O.faults out.new) }
    ensures store { CountMoves (is_store_fault result) (S.faults store.old) (S.faults store.new) }
    ensures unchanged { S.files store.new ≡ S.files store.old }
    ensures ends { CanEnd (command_of (map string_bytes words.now)) result }
    ensures idle { command_of (map string_bytes words.now) ≡ None →
        IsIdle (O.taken out.old) (O.taken out.new) (O.faults out.old) (O.faults out.new)
        (S.faults store.old) (S.faults store.new) }
    ensures longest { S.longest store.new ≡ S.longest store.old }
{
    match command_of(words) {
        None => Ending::Usage,
        Some(command) => run_command(alloc, command, store, out),
    }
}

/// Does what the words of the command line ask: `go` and the name of a source file compiles the
/// program in that file and runs it, for the number of lines after `--lines`, or otherwise for a thousand
/// million lines. The answer's status is the program's exit status, and its report line, if it has
/// one, goes to the report.
pub fn basic_words<S: Store, I: Source, O: Sink, E: Sink>(
    alloc: Global,
    words: &[String],
    store: &mut S,
    input: &mut I,
    out: &mut O,
    report: &mut E,
) -> Status
    requires { S.longest store.old ≡ 68 }

    // If the store tells its files, no count of faults rose and there was memory: the status,
    // the output and the report are those of the answer to the words, whatever the input.
    ensures exact { IfSome (S.files store.old) (λ files. (input : List ℕ) →
        ¬ Rose (S.faults store.old) (S.faults store.new) →
        ¬ Rose (O.faults out.old) (O.faults out.new) →
        ¬ Rose (E.faults report.old) (E.faults report.new) →
        result ≢ Status.Memory →
        IsAnswered (answer_of (map string_bytes words.now) files input)
        (O.taken out.old) (O.taken out.new) (E.taken report.old) (E.taken report.new) result) }

    // Whatever failed: that answer, or a failure with a prefix of its output.
    ensures answered { IfSome (S.files store.old) (λ files. (input : List ℕ) →
        AnswersOrGivesUp (answer_of (map string_bytes words.now) files input)
        (O.taken out.old) (O.taken out.new) (E.taken report.old) (E.taken report.new) result) }
    ensures built_statuses { IsTrue (can_be result) }

    // A command line that is not valid: Usage with its line, and nothing else is done.
    ensures usage { result ≡ Status.Usage → command_of (map string_bytes words.now) ≡ None }
    ensures no_command { command_of (map string_bytes words.now) ≡ None →
        IsTold Ending.Usage (E.taken report.old) (E.taken report.new) result }
    ensures idle { command_of (map string_bytes words.now) ≡ None →
        IsIdle (O.taken out.old) (O.taken out.new) (O.faults out.old) (O.faults out.new)
        (S.faults store.old) (S.faults store.new) }

    // A fault is answered only if that object's count rose in this call.
    ensures store_fault { result ≡ Status.StoreFault → Rose (S.faults store.old) (S.faults store.new) }
    ensures output_fault { result ≡ Status.OutputFault → Rose (O.faults out.old) (O.faults out.new) }
    ensures report_fault { result ≡ Status.ReportFault → Rose (E.faults report.old) (E.faults report.new) }

    // If a count rose, the answer is the fault of that object or of the report, or Memory.
    ensures store_rose { S.faults store.old < S.faults store.new →
        IsTrue (tells_fault Status.StoreFault result) }
    ensures output_rose { O.faults out.old < O.faults out.new →
        IsTrue (tells_fault Status.OutputFault result) }
    ensures report_rose { E.faults report.old < E.faults report.new →
        IsTrue (tells_fault Status.ReportFault result) }

    // What the report took of a failure.
    ensures store_fault_told { result ≡ Status.StoreFault →
        TookAll (E.taken report.old) (E.taken report.new) (report_of Ending.StoreFault) }
    ensures output_fault_told { result ≡ Status.OutputFault →
        TookAll (E.taken report.old) (E.taken report.new) (report_of Ending.OutputFault) }
    ensures one_report_line { TookReportPrefix (map string_bytes words.now) (E.taken report.old) (E.taken report.new) }
    ensures line_of_answer { IfSome (S.files store.old) (λ files. (input : List ℕ) →
        TookLineOf (answer_of (map string_bytes words.now) files input)
        (E.taken report.old) (E.taken report.new)) }

    // What no command changes.
    ensures files_stay { S.files store.new ≡ S.files store.old }
    ensures input_stays { I.left input.new ≡ I.left input.old }
    ensures input_count_stays { I.faults input.new ≡ I.faults input.old }
{
    let _ = input;
    let ending = perform(alloc, words, store, out);
    write_report(alloc, ending, report)
}
