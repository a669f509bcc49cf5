//! The input files.

ghost use Rattle.std.specs.Prelude.{◌≡◌, ◌≤◌, IfOk, IsErrOf, MatchResult, length, option_map};
ghost use Rattle.escrow_desk.specs.Content.{IsAbsent};
ghost use Rattle.certificate_answers.specs.Reading.{AreFound, AreHoldingsRead, IsRead, KeepHoldings, KeepToLimits, KeepsTo, LackHoldings, LacksInput, names_view};
ghost use Rattle.certificate_answers.specs.Stopping.{CountsStep};

use crate::stop::Stop;
use escrow_desk::{Desk, FILE_LIMIT, FileKind, ReadRefusal, read_all};
use std::alloc::Global;

/// The names of the files of which something is asked, or of which a certificate is written.
#[derive(Clone, Copy)]
pub struct FileNames<'a> {
    /// The issue file.
    pub issue: &'a str,
    /// The rate file.
    pub rates: &'a str,
    /// The price file.
    pub prices: &'a str,
    /// What the escrow holds already, where that is given.
    pub held: Option<&'a str>,
    /// The certificate.
    pub cert: &'a str,
}

/// The bytes of the input files.
#[derive(Drop)]
pub struct InputFiles {
    /// The issue file.
    pub issue: Vec<u8>,
    /// The rate file.
    pub rates: Vec<u8>,
    /// The price file.
    pub prices: Vec<u8>,
    /// What the escrow holds already, where that is given.
    pub held: Option<Vec<u8>>,
}

/// What was read of a file.
#[derive(Drop)]
pub(crate) enum FileText {
    /// All its bytes, at most as many as the limit.
    Within(Vec<u8>),
    /// It has more bytes than the limit.
    TooLong,
}

/// What was read of the input files.
#[derive(Drop)]
pub enum Inputs {
    /// All of them.
    Within(InputFiles),
    /// This is the first that has more bytes than its limit.
    TooLong(FileKind),
}

/// The bytes of a file within a limit. No content changes.
pub(crate) fn read_file<D: Desk>(
    alloc: Global,
    desk: &mut D,
    name: &str,
    limit: u64,
) -> Result<FileText, Stop>
    ensures read { IfOk result (λ text. IsRead (D.told desk.old) name.now limit text) }
    ensures within { IfOk result (KeepsTo limit) }
    ensures absent { IsErrOf result Stop.NoFile → IsAbsent (D.told desk.old) name.now }
    ensures told { D.told desk.new ≡ D.told desk.old }
    ensures counts { CountsStep result (D.counts desk.old) (D.counts desk.new) }
{
    match read_all(alloc, desk, name, limit) {
        Ok(bytes) => Ok(FileText::Within(bytes)),
        Err(ReadRefusal::TooLong) => Ok(FileText::TooLong),
        Err(ReadRefusal::Fault) => Err(Stop::ReadFault),
        Err(ReadRefusal::NoFile) => Err(Stop::NoFile),
        Err(ReadRefusal::NoMemory) => Err(Stop::NoMemory),
    }
}

// What was read of the holdings.
#[derive(Drop)]
enum HeldText {
    // All their bytes, at most as many as the limit, where they are given.
    Within(Option<Vec<u8>>),
    // They have more bytes than the limit.
    TooLong,
}

// The holdings, where they are given. No content changes.
fn read_holdings<D: Desk>(alloc: Global, desk: &mut D, name: Option<&str>) -> Result<HeldText, Stop>
    ensures read { IfOk result (λ text. AreHoldingsRead (D.told desk.old) (option_map (λ own. own.now) name.entry) text) }
    ensures within { IfOk result KeepHoldings }
    ensures absent { IsErrOf result Stop.NoFile → LackHoldings (D.told desk.old) (option_map (λ own. own.now) name.entry) }
    ensures told { D.told desk.new ≡ D.told desk.old }
    ensures counts { CountsStep result (D.counts desk.old) (D.counts desk.new) }
{
    let Some(name) = name else {
        return Ok(HeldText::Within(None));
    };
    match read_file(alloc, desk, name, FILE_LIMIT)? {
        FileText::Within(bytes) => Ok(HeldText::Within(Some(bytes))),
        FileText::TooLong => Ok(HeldText::TooLong),
    }
}

/// The input files, read in their order; or the first that has more bytes than its limit, after which none is read. No
/// content changes.
///
/// # Errors
///
/// `NoFile` where a file isn't there, `ReadFault` where a read failed, and `NoMemory`.
pub fn read_inputs<D: Desk>(
    alloc: Global,
    desk: &mut D,
    names: &FileNames<'_>,
) -> Result<Inputs, Stop>
    ensures read { IfOk result (AreFound (D.told desk.old) (names_view names.now)) }
    ensures within { IfOk result KeepToLimits }
    ensures absent { IsErrOf result Stop.NoFile → LacksInput (D.told desk.old) (names_view names.now) }
    ensures told { D.told desk.new ≡ D.told desk.old }
    ensures counts { CountsStep result (D.counts desk.old) (D.counts desk.new) }
{
    let FileText::Within(issue) = read_file(alloc, desk, names.issue, FILE_LIMIT)? else {
        return Ok(Inputs::TooLong(FileKind::Issue));
    };
    let FileText::Within(rates) = read_file(alloc, desk, names.rates, FILE_LIMIT)? else {
        return Ok(Inputs::TooLong(FileKind::Rates));
    };
    let FileText::Within(prices) = read_file(alloc, desk, names.prices, FILE_LIMIT)? else {
        return Ok(Inputs::TooLong(FileKind::Prices));
    };
    let HeldText::Within(held) = read_holdings(alloc, desk, names.held)? else {
        return Ok(Inputs::TooLong(FileKind::Held));
    };
    Ok(Inputs::Within(InputFiles {
        issue,
        rates,
        prices,
        held,
    }))
}
