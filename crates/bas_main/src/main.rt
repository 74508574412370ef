//! The program: it runs the command that its words are, over the current folder and the standard
//! streams, and ends with the command's status.
#![tactic(auto)]

mod words;

use bas_drive::{Status, basic_words};
use bas_system::{Folder, StreamSink, StreamSource};
use std::process::ExitCode;

fn main(rt: HostRuntime) -> ExitCode {
    let mut store = Folder::new(&rt);
    let mut input = StreamSource::new(rt.reader());
    let mut out = StreamSink::new(rt.stdout());
    let mut report = StreamSink::new(rt.stderr());
    let status = match words::command_words(&rt) {
        Ok(words) => basic_words(
            rt.alloc(),
            words.as_slice(),
            &mut store,
            &mut input,
            &mut out,
            &mut report,
        ),
        Err(_) => Status::Memory,
    };
    ExitCode::from(status.code())
}
