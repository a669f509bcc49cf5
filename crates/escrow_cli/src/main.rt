//! The program: the words of its command line, carried out over the files of the system and standard output.
#![tactic(auto)]

mod real;
mod teller;

ghost use Rattle.std.specs.Prelude.{◌≡◌, is_some, not, option_map};
ghost use Rattle.certificate_answers.specs.Stopping.{is_reached};
ghost use Rattle.escrow_cli.specs.Complaint.{complaint_of};

use escrow_desk::NoMemory;
use escrow_top::{Status, run_watched};
use real::RealDesk;
use std::env;
use std::io::{ErrorKind, IsTerminal};
use std::process::ExitCode;
use teller::Teller;

// The words after the program's name; none where one of them isn't UTF-8.
fn words_of(rt: &HostRuntime) -> Result<Vec<String>, NoMemory> {
    match env::args(rt) {
        Ok(words) => Ok(words.skip(1).collect(rt.alloc())?),
        Err(error) if error.kind() == ErrorKind::OutOfMemory => Err(NoMemory),
        Err(_) => Ok(Vec::new(rt.alloc())),
    }
}

// What standard error says of a run that was cut off.
fn complaint(status: Status) -> Option<&'static str>
    ensures line { option_map (λ line. line.now) result ≡ complaint_of status }
    ensures cut_off { is_some result ≡ not (is_reached status) }
{
    match status {
        Status::ReadFault => Some("read fault"),
        Status::WriteFault => Some("write fault"),
        Status::NoFile => Some("no file"),
        Status::NoMemory => Some("no memory"),
        _ => None,
    }
}

// Carries the words out; while a search works, standard error says how far it is.
fn run_words(rt: &HostRuntime) -> Status {
    match words_of(rt) {
        Ok(words) => run_watched(
            rt.alloc(),
            words.as_slice(),
            &mut RealDesk::new(rt, rt.alloc()),
            &mut Teller::new(rt, rt.alloc(), rt.stderr().is_terminal()),
        ),
        Err(NoMemory) => Status::NoMemory,
    }
}

fn main(rt: HostRuntime) -> ExitCode {
    let status = run_words(&rt);
    if let Some(line) = complaint(status) {
        // Where standard error can't be written to, the status alone says it.
        let _ = eprintln!(rt; "{line}");
    }
    ExitCode::from(status.code())
}
