// The label program: text in, text out, over the proved libraries.
#![tactic(auto)]

use check_text::report_on;
use label_text::{HexFault, Report, TextFault, Verb, list, parse_hex};
use std::alloc::{AllocError, Global};
use std::io::Read;
use std::process::ExitCode;
use std::{env, fs, io};
use thiserror::Error;

const USAGE: &str = "usage: label list [FILE]
       label check [FILE]
  list   the records of a sheet, each at its offset in words, and their counts
  check  whether the sheet loads: its tables, or why not and where
A sheet is hexadecimal text, with spaces, line ends and comments from # on.
Without a FILE it is read from standard input.
";

// Why the program ends without its answer.
#[derive(Debug, Drop, Error)]
enum Stop<'a> {
    #[error("{name}: {fault}")]
    Misspelled { name: &'a str, fault: TextFault },
    #[error("{name} cannot be read: {error}")]
    Unreadable { name: &'a str, error: io::Error },
    #[error("out of memory")]
    Memory,
    #[error("{0}")]
    Broken(#[from] io::Error),
}

// Not by #[from], since the reading of hexadecimal text also says that memory ran out, and has no AllocError to hand on.
impl From<AllocError> for Stop<'_> {
    fn from(_error: AllocError) -> Self {
        Stop::Memory
    }
}

fn main(rt: HostRuntime) -> io::Result<ExitCode> {
    let words = match words(&rt) {
        Ok(words) => words,
        Err(stop) => return complain(&rt, &stop),
    };
    run(&rt, words.as_slice()).or_else(|stop| complain(&rt, &stop))
}

fn words(rt: &HostRuntime) -> Result<Vec<String>, Stop<'static>> {
    Ok(env::args(rt)?.collect(rt.alloc())?)
}

// Tells why there is no answer. Where a fault of the sheet cannot be told, the error of that is told in its place.
fn complain(rt: &HostRuntime, stop: &Stop<'_>) -> io::Result<ExitCode> {
    match (stop, eprintln!(rt; "label: {stop}")) {
        (Stop::Misspelled { .. } | Stop::Unreadable { .. }, Err(error)) => {
            eprintln!(rt; "label: {error}")?;
        }
        (_, told) => told?,
    }
    Ok(ExitCode::FAILURE)
}

fn run<'a>(rt: &HostRuntime, words: &'a [String]) -> Result<ExitCode, Stop<'a>> {
    let [_, verb, rest @ ..] = words else {
        print!(rt; "{USAGE}")?;
        return Ok(ExitCode::SUCCESS);
    };
    let file = match rest {
        [] => None,
        [file] => Some(file.as_str()),
        _ => return wrong_words(rt),
    };
    // closures, since a function of another crate gets no proof where it is passed by its name
    match Verb::named(verb.as_str()) {
        Some(Verb::List) => tell(rt, file, |heap, bytes| list(heap, bytes)),
        Some(Verb::Check) => tell(rt, file, |heap, bytes| report_on(heap, bytes)),
        None => wrong_words(rt),
    }
}

fn wrong_words<'a>(rt: &HostRuntime) -> Result<ExitCode, Stop<'a>> {
    eprint!(rt; "{USAGE}")?;
    Ok(ExitCode::FAILURE)
}

// The runtime and the name of the file go through the next three together; a struct of both would only rename them.

// Says of a sheet what `report` makes of its bytes. A sheet that is refused ends the program with status 1.
fn tell<'a, F>(rt: &HostRuntime, file: Option<&'a str>, report: F) -> Result<ExitCode, Stop<'a>>
where
    F: FnOnce(Global, &[u8]) -> Result<Report, AllocError>,
    requires { F.IsAlwaysCallable report }
{
    let bytes = read_sheet(rt, file)?;
    let report = report(rt.alloc(), bytes.as_slice())?;
    rt.print(report.text.as_str())?;
    Ok(if report.accepted {
        ExitCode::SUCCESS
    } else {
        ExitCode::FAILURE
    })
}

// The bytes of a sheet, from a file of hexadecimal text or from standard input.
fn read_sheet<'a>(rt: &HostRuntime, file: Option<&'a str>) -> Result<Vec<u8>, Stop<'a>> {
    let text = read_text(rt, file)?;
    parse_hex(rt.alloc(), text.as_slice()).map_err(|fault| match fault {
        HexFault::Text(fault) => Stop::Misspelled {
            name: file.unwrap_or("standard input"),
            fault,
        },
        HexFault::Memory => Stop::Memory,
    })
}

fn read_text<'a>(rt: &HostRuntime, file: Option<&'a str>) -> Result<Vec<u8>, Stop<'a>> {
    let Some(name) = file else {
        let mut text = Vec::new(rt.alloc());
        rt.stdin().read_to_end(&mut text)?;
        return Ok(text);
    };
    fs::read(rt, name).map_err(|error| Stop::Unreadable { name, error })
}
