//! The words of a command line.

ghost use Rattle.std.specs.Prelude.{◌≡◌, map, option_map, string_bytes};
ghost use Rattle.escrow_top.specs.Command.{cap_of as cap_of_rate, command_of_five as command_of_five_words, command_of_six as command_of_six_words, command_of_words, command_view};
ghost use Rattle.escrow_top.specs.MakeWords.{number_of_word};
ghost use Rattle.escrow_units.specs.NumberText.{rate_of};

use crate::making::{MadeNames, Making};
use certificate_answers::{Asking, FileNames, Inquiry};
use escrow_units::{Rate, read_rate};
use itoa::Buffer;

/// What the words of a command line ask for.
#[derive(Clone, Copy)]
pub(crate) enum Command<'a> {
    /// `structure`, or `structure-held` where holdings are named, of the files of these names.
    Structure(FileNames<'a>),
    /// `cap`, of the files of these names.
    Cap(FileNames<'a>),
    /// `check`, `savings`, `roll`, `check-held` or `check-cap`, of the files of these names.
    Ask(Asking<'a>),
    /// `make`, of the case of a number, in files of these names.
    Make(Making<'a>),
}

// The number that a word writes in decimal digits, without a sign or a leading zero: it is printed again and compared.
fn number_of(word: &str) -> Option<u64>
    ensures { result ≡ number_of_word word.now }
{
    let number = word.parse::<u64>().ok()?;
    let mut digits = Buffer::new();
    if digits.format(number) == word {
        Some(number)
    } else {
        None
    }
}

// The cap that a word is: a rate in percent, in whole hundredths, up to 30.
fn cap_of(word: &str) -> Option<Rate>
    ensures { result ≡ cap_of_rate (rate_of word.now) }
{
    let rate = read_rate(word.as_bytes()).ok()?;
    if rate.0 % 10 == 0 { Some(rate) } else { None }
}

// What the words of files ask for behind a first word, where five words stand.
fn command_of_five<'a>(
    word: &str,
    first: &'a str,
    second: &'a str,
    third: &'a str,
    last: &'a str,
) -> Option<Command<'a>>
    ensures { option_map command_view result ≡ command_of_five_words word.now first.now second.now third.now last.now }
{
    if word == "make" {
        let number = number_of(first)?;
        let names = MadeNames {
            issue: second,
            rates: third,
            prices: last,
        };
        return Some(Command::Make(Making { number, names }));
    }
    let names = FileNames {
        issue: first,
        rates: second,
        prices: third,
        held: None,
        cert: last,
    };
    if word == "structure" {
        return Some(Command::Structure(names));
    }
    if word == "cap" {
        return Some(Command::Cap(names));
    }
    let inquiry = if word == "check" {
        Inquiry::Check
    } else if word == "savings" {
        Inquiry::Savings
    } else if word == "roll" {
        Inquiry::Roll
    } else {
        return None;
    };
    Some(Command::Ask(Asking { inquiry, names }))
}

// The same where six words stand: with a cap, or with holdings.
fn command_of_six<'a>(
    word: &str,
    first: &'a str,
    second: &'a str,
    third: &'a str,
    fourth: &'a str,
    last: &'a str,
) -> Option<Command<'a>>
    ensures { option_map command_view result ≡ command_of_six_words word.now first.now second.now third.now fourth.now last.now }
{
    if word == "check-cap" {
        let cap = cap_of(first)?;
        let names = FileNames {
            issue: second,
            rates: third,
            prices: fourth,
            held: None,
            cert: last,
        };
        let inquiry = Inquiry::AtCap(cap);
        return Some(Command::Ask(Asking { inquiry, names }));
    }
    let names = FileNames {
        issue: first,
        rates: second,
        prices: third,
        held: Some(fourth),
        cert: last,
    };
    if word == "structure-held" {
        return Some(Command::Structure(names));
    }
    if word == "check-held" {
        let inquiry = Inquiry::Check;
        return Some(Command::Ask(Asking { inquiry, names }));
    }
    None
}

/// The command of words, which are read by their places; None where they are no command.
pub(crate) fn command_of(words: &[String]) -> Option<Command<'_>>
    ensures { option_map command_view result ≡ command_of_words (map string_bytes words.now) }
{
    match words {
        [word, first, second, third, last] => command_of_five(
            word.as_str(),
            first.as_str(),
            second.as_str(),
            third.as_str(),
            last.as_str(),
        ),
        [word, first, second, third, fourth, last] => command_of_six(
            word.as_str(),
            first.as_str(),
            second.as_str(),
            third.as_str(),
            fourth.as_str(),
            last.as_str(),
        ),
        _ => None,
    }
}
