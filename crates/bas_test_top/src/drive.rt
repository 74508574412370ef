//! The words of the command line, and what they come to over files and streams in memory.

ghost use Rattle.std.specs.Prelude.{◌≢◌, ℕ, List, map, string_bytes, Some};
ghost use Rattle.bas_drive.specs.Answer.{answer_of};
ghost use Rattle.bas_drive.specs.Headline.{IsAnswered};

use crate::programs::{Case, PROGRAMS, REFUSED};
use bas_base::FileName;
use bas_drive::{Status, basic_words};
use bas_world::{MemSink, MemSource, MemStore, SureSink, SureSource, SureStore};
use std::alloc::{AllocError, Global};
use std::process::Abort;
use std::test::Fail;

const SUMS: &[u8] =
    b"10 LET A = 2\n20 LET B = A + 40\n30 PRINT B - 50\n40 PRINT A\n50 PRINT B\n60 END\n";

fn words_of(alloc: Global, texts: &[&str]) -> Result<Vec<String>, AllocError> {
    let mut words = Vec::new(alloc);
    for text in texts {
        words.push(String::from_str(alloc, text)?)?;
    }
    Ok(words)
}

fn file_name() -> Result<FileName, Fail> {
    Ok(FileName::of(b"a.bas").ok().ok_or("no file name")?)
}

// What words come to over objects that never fail: the answer, or want of memory.
fn sure_answer(
    alloc: Global,
    words: &[String],
    store: &mut SureStore,
    out: &mut SureSink,
    report: &mut SureSink,
) -> Status
    ensures { (input : List ℕ) → result ≢ Status.Memory →
        IsAnswered (answer_of (map string_bytes words.now) store.old input) (Some out.old) (Some out.new) (Some report.old) (Some report.new) result }
{
    let mut input = SureSource::new(Vec::new(alloc));
    basic_words(alloc, words, store, &mut input, out, report)
}

fn check_case(rt: &impl Abort, alloc: Global, case: &Case) -> Result<(), Fail> {
    let words = words_of(alloc, &["go", "a.bas", "--lines", case.lines])?;
    let mut store = SureStore::new(alloc);
    store.put(file_name()?, case.text)?;
    let mut out = SureSink::new(alloc);
    let mut report = SureSink::new(alloc);
    let status = sure_answer(alloc, words.as_slice(), &mut store, &mut out, &mut report);
    assert_eq!(rt; report.bytes(), case.report);
    assert_eq!(rt; status, case.status);
    assert_eq!(rt; out.bytes(), case.output);
    assert_eq!(rt; store.get(file_name()?), Some(case.text));
    Ok(())
}

#[test]
fn programs(rt: HostRuntime) -> Result<(), Fail> {
    for case in &PROGRAMS {
        check_case(&rt, rt.alloc(), case)?;
    }
    Ok(())
}

#[test]
fn refused_files(rt: HostRuntime) -> Result<(), Fail> {
    for refused in &REFUSED {
        let case = Case {
            text: refused.text,
            lines: "100",
            status: Status::SourceRefused,
            output: b"",
            report: refused.report,
        };
        check_case(&rt, rt.alloc(), &case)?;
    }
    Ok(())
}

// What words come to over the one file `a.bas`, with the numbers of the calls that fail.
#[derive(Drop)]
struct Outcome {
    status: Status,
    store: MemStore,
    out: MemSink,
    report: MemSink,
}

// The numbers of the calls that fail, of the store, the output and the report.
#[derive(Clone, Copy)]
struct Failing<'a> {
    store: &'a [u64],
    out: &'a [u64],
    report: &'a [u64],
}

const NONE: Failing = Failing {
    store: &[],
    out: &[],
    report: &[],
};

fn run_file(alloc: Global, text: &[u8], fails: Failing) -> Result<Outcome, Fail> {
    let words = words_of(alloc, &["go", "a.bas"])?;
    let mut store = MemStore::new(alloc, fails.store.to_vec(alloc)?);
    store.put(file_name()?, text)?;
    let mut input = MemSource::new(Vec::new(alloc), Vec::new(alloc));
    let mut out = MemSink::new(alloc, fails.out.to_vec(alloc)?);
    let mut report = MemSink::new(alloc, fails.report.to_vec(alloc)?);
    let status = basic_words(
        alloc,
        words.as_slice(),
        &mut store,
        &mut input,
        &mut out,
        &mut report,
    );
    Ok(Outcome {
        status,
        store,
        out,
        report,
    })
}

#[test]
fn each_store_call_fails(rt: HostRuntime) -> Result<(), Fail> {
    let found = run_file(rt.alloc(), SUMS, NONE)?;
    assert_eq!(rt; found.status, Status::Ended);
    assert_eq!(rt; found.store.calls(), 2);
    for call in 1..=2u64 {
        let store = &[call];
        let found = run_file(rt.alloc(), SUMS, Failing { store, ..NONE })?;
        assert_eq!(rt; found.status, Status::StoreFault);
        assert_eq!(rt; found.out.bytes(), b"".as_slice());
        assert_eq!(rt; found.report.bytes(), b"store fault\n".as_slice());
    }
    Ok(())
}

#[test]
fn each_output_call_fails(rt: HostRuntime) -> Result<(), Fail> {
    let whole = b"-8 \n 2 \n 42 \n";
    for call in 1..=6u64 {
        let out = &[call];
        let found = run_file(rt.alloc(), SUMS, Failing { out, ..NONE })?;
        assert_eq!(rt; found.status, Status::OutputFault);
        assert!(rt; whole.as_slice().starts_with(found.out.bytes()));
        assert!(rt; found.out.bytes().len() < whole.len());
        assert_eq!(rt; found.report.bytes(), b"output fault\n".as_slice());
    }
    let out = &[7];
    let found = run_file(rt.alloc(), SUMS, Failing { out, ..NONE })?;
    assert_eq!(rt; found.status, Status::Ended);
    assert_eq!(rt; found.out.bytes(), whole.as_slice());
    Ok(())
}

#[test]
fn the_report_fails(rt: HostRuntime) -> Result<(), Fail> {
    let text = b"10 GOTO 15\n20 END\n";
    let report = &[1];
    let found = run_file(rt.alloc(), text, Failing { report, ..NONE })?;
    assert_eq!(rt; found.status, Status::ReportFault);
    assert_eq!(rt; found.report.bytes(), b"".as_slice());
    Ok(())
}

// What words come to over a store with the one file `a.bas`, and the report.
fn answer(alloc: Global, texts: &[&str]) -> Result<(Status, SureSink), Fail> {
    let words = words_of(alloc, texts)?;
    let mut store = SureStore::new(alloc);
    store.put(file_name()?, SUMS)?;
    let mut out = SureSink::new(alloc);
    let mut report = SureSink::new(alloc);
    let status = sure_answer(alloc, words.as_slice(), &mut store, &mut out, &mut report);
    Ok((status, report))
}

#[test]
fn commands(rt: HostRuntime) -> Result<(), Fail> {
    let alloc = rt.alloc();
    let usage = b"usage: fullbasic check, compile, link, run, go, list or demo\n";
    let no_commands: [&[&str]; 15] = [
        &[],
        &["go"],
        &["run", "a.bas"],
        &["GO", "a.bas"],
        &["go", "a.obj"],
        &["go", ".bas"],
        &["go", "a b.bas"],
        &["go", "a.bas", "a.bas"],
        &[
            "go",
            "aaaaaaaaaaaaaaaaaaaaaaaaaaaaaaaaaaaaaaaaaaaaaaaaaaaaaaaaaaaaa.bas",
        ],
        &["go", "a.bas", "--lines"],
        &["go", "a.bas", "--lines", ""],
        &["go", "a.bas", "--lines", "1234567890123"],
        &["go", "a.bas", "--lines", "+1"],
        &["go", "a.bas", "--lines=10"],
        &["--lines", "10", "go", "a.bas"],
    ];
    for texts in &no_commands {
        let (status, report) = answer(alloc, texts)?;
        assert_eq!(rt; status, Status::Usage);
        assert_eq!(rt; report.bytes(), usage.as_slice());
    }
    let (status, report) = answer(alloc, &["go", "none.bas"])?;
    assert_eq!(rt; status, Status::FileMissing);
    assert_eq!(rt; report.bytes(), b"none.bas: missing\n".as_slice());
    let (status, _) = answer(alloc, &["go", "a.bas", "--lines", "000000000006"])?;
    assert_eq!(rt; status, Status::Ended);
    Ok(())
}

#[test]
fn large_files(rt: HostRuntime) -> Result<(), Fail> {
    let spaces = vec![in rt.alloc(); 32; 1_048_577]?;
    let found = run_file(rt.alloc(), spaces.as_slice(), NONE)?;
    assert_eq!(rt; found.status, Status::TooLarge);
    assert_eq!(rt;
        found.report.bytes(),
        b"a.bas: too large 1048577 1048576\n".as_slice()
    );
    assert_eq!(rt; found.store.calls(), 1);
    Ok(())
}

// `PRINT` of a sum of that many ones: 2 instructions for each, and 2 more.
fn put_sum(text: &mut Vec<u8>, line: &str, ones: u32) -> Result<(), AllocError> {
    text.extend_from_slice(line.as_bytes())?;
    text.extend_from_slice(b" PRINT 1")?;
    for _ in 1..ones {
        text.extend_from_slice(b"+1")?;
    }
    text.push(b'\n')?;
    Ok(())
}

// 31 such lines with 2,048 instructions each, one with the last sum, and `END`, which has 2.
fn long_program(alloc: Global, last: u32) -> Result<Vec<u8>, Fail> {
    let mut text = Vec::new(alloc);
    for line in 1..=31u32 {
        let number = format!(in alloc; "{line}")?;
        put_sum(&mut text, number.as_str(), 1023)?;
    }
    put_sum(&mut text, "32", last)?;
    text.extend_from_slice(b"99999 END\n")?;
    Ok(text)
}

#[test]
fn large_bodies(rt: HostRuntime) -> Result<(), Fail> {
    let fits = long_program(rt.alloc(), 1021)?;
    let found = run_file(rt.alloc(), fits.as_slice(), NONE)?;
    assert_eq!(rt; found.status, Status::Ended);
    let passes = long_program(rt.alloc(), 1022)?;
    let found = run_file(rt.alloc(), passes.as_slice(), NONE)?;
    assert_eq!(rt; found.status, Status::TooLarge);
    assert_eq!(rt;
        found.report.bytes(),
        b"MAIN: too large 65536 65535\n".as_slice()
    );
    Ok(())
}

#[test]
fn many_variables(rt: HostRuntime) -> Result<(), Fail> {
    let alloc = rt.alloc();
    let mut text = Vec::new(alloc);
    for line in 1..=4097u32 {
        let statement = format!(in alloc; "{line} LET A{line} = 1\n")?;
        text.extend_from_slice(statement.as_bytes())?;
    }
    text.extend_from_slice(b"99999 END\n")?;
    let found = run_file(alloc, text.as_slice(), NONE)?;
    assert_eq!(rt; found.status, Status::TooLarge);
    assert_eq!(rt;
        found.report.bytes(),
        b"MAIN: too large 4097 4096\n".as_slice()
    );
    Ok(())
}

#[test]
fn codes(rt: HostRuntime) {
    assert_eq!(rt; Status::Ended.code(), 0);
    assert_eq!(rt; Status::TooLarge.code(), 13);
}
