//! Runs over a desk in memory, and the files that they are tried on.

ghost use Rattle.std.specs.Prelude.{◌≡◌, IfOk, string_bytes};

use certificate_answers::Status;
use escrow_desk::{MemoryDesk, NamedBytes};
use escrow_top::run;
use std::alloc::Global;
use std::process::Abort;
use std::test::Fail;

/// The bytes of the files.
#[derive(Clone, Copy)]
pub(crate) struct Files {
    pub issue: &'static [u8],
    pub rates: &'static [u8],
    pub prices: &'static [u8],
    pub held: &'static [u8],
    pub cert: &'static [u8],
}

/// One need, one offer and one purchase that covers the need to the cent.
pub(crate) const FIRST: Files = Files {
    issue: b"settle,2025-01-15\nneed,2025-04-15,5000.00\nrestricted,4.00\n",
    rates: b"terms,1000,100\noffer,2025-04-15,0.00,,10000\n",
    prices: b"",
    held: b"",
    cert: b"escrow-certificate 1\nportfolio 1\nbuy 1 50\ngap 0\nnodes 1\nl 1 0 1000000000000\nend\n",
};

/// What `check` says of the first files.
pub(crate) const FIRST_TEXT: &[u8] =
    b"yes\ncost 5000.00\nyield 0.00000000 0.00000000\nlimit 4.00100000\ngap 0.00\n";

/// The words of `check`.
pub(crate) const CHECK: [&str; 5] = ["check", "i", "r", "p", "c"];

/// A file of a name.
pub(crate) fn named(alloc: Global, name: &str, bytes: &[u8]) -> Result<NamedBytes, Fail>
    ensures { IfOk result (λ file. string_bytes file.name ≡ name.now) }
{
    let name = String::from_str(alloc, name)?;
    let bytes = Vec::from_slice(alloc, bytes)?;
    Ok(NamedBytes { name, bytes })
}

// A desk of the files, of which one call fails.
fn desk_of(alloc: Global, files: &Files, failing: u64) -> Result<MemoryDesk, Fail> {
    let issue = named(alloc, "i", files.issue)?;
    let rates = named(alloc, "r", files.rates)?;
    let prices = named(alloc, "p", files.prices)?;
    let held = named(alloc, "h", files.held)?;
    let cert = named(alloc, "c", files.cert)?;
    let files = vec![in alloc; issue, rates, prices, held, cert]?;
    Ok(MemoryDesk::make(alloc, files, vec![in alloc; failing]?))
}

/// How a run ended, and the desk that it left.
#[derive(Drop)]
pub(crate) struct Outcome {
    pub status: Status,
    pub desk: MemoryDesk,
}

/// Words as `run` takes them.
pub(crate) fn run_words(alloc: Global, words: &[&str]) -> Result<Vec<String>, Fail> {
    let mut list = Vec::new(alloc);
    for word in words {
        list.push(String::from_str(alloc, word)?)?;
    }
    Ok(list)
}

/// Runs words over a desk of the files, of which one call fails.
pub(crate) fn outcome_of(
    alloc: Global,
    words: &[&str],
    files: &Files,
    failing: u64,
) -> Result<Outcome, Fail> {
    let mut desk = desk_of(alloc, files, failing)?;
    let words = run_words(alloc, words)?;
    let status = run(alloc, words.as_slice(), &mut desk);
    Ok(Outcome { status, desk })
}
