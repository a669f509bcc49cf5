//! Files of a worked case, and the case of files.

use case_file::{Case, read_case};
use escrow_desk::FILE_LIMIT;
use std::alloc::Global;
use std::process::Abort;
use std::test::Fail;

/// Two needs.
pub(crate) const TWO_NEEDS: &[u8] =
    b"settle,2025-01-15\nneed,2025-07-15,1000000.00\nneed,2027-01-15,2000000.00\nrestricted,3.50\n";

/// For each of the two needs an offer of 4 and one of 3 percent.
pub(crate) const FOUR_OFFERS: &[u8] =
    b"terms,1000,1\nrate,2025-02-14,2027-01-15,4.00\noffer,2025-07-15,max,,10000000\noffer,2025-07-15,3.00,,10000000\noffer,2027-01-15,max,,10000000\noffer,2027-01-15,3.00,,10000000\n";

/// The case of an issue file, a rate file and a price file.
pub(crate) fn case_of(
    rt: &impl Abort,
    alloc: Global,
    issue: &[u8],
    rates: &[u8],
    prices: &[u8],
) -> Result<Case, Fail> {
    assert!(rt;
        issue.len() as u64 <= FILE_LIMIT
            && rates.len() as u64 <= FILE_LIMIT
            && prices.len() as u64 <= FILE_LIMIT
    );
    Ok(read_case(alloc, issue, rates, prices)?)
}
