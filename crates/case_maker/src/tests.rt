//! The files of four numbers, by how they begin and end. The figures were worked out apart from this program.
use crate::make;
use std::alloc::Global;
use std::process::Abort;
use std::test::Fail;

// How a text begins and ends.
#[derive(Clone, Copy)]
struct Ends {
    first: &'static [u8],
    last: &'static [u8],
}

// A number, and the files of its case.
#[derive(Clone, Copy)]
struct Row {
    number: u64,
    issue: Ends,
    rates: Ends,
    prices: Ends,
}

impl Ends {
    // A text of so many bytes begins and ends so.
    fn are_of(self, text: &[u8], length: usize) -> bool {
        text.len() == length && text.starts_with(self.first) && text.ends_with(self.last)
    }
}

// The files of a row are these.
fn is_made(rt: &impl Abort, alloc: Global, row: &Row) -> Result<(), Fail> {
    let made = make(alloc, row.number)?;
    assert!(rt; row.issue.are_of(made.issue.as_slice(), 1_145));
    assert!(rt; row.rates.are_of(made.rates.as_slice(), 2_645));
    assert!(rt; row.prices.are_of(made.prices.as_slice(), 472));
    Ok(())
}

#[test]
fn cases_are_made(rt: HostRuntime) -> Result<(), Fail> {
    let rows = [
        Row {
            number: 0,
            issue: Ends {
                first: b"settle,2026-01-15\nneed,2026-07-15,1183964.24\nneed,2027-01-15,1249219.37\n",
                last: b"need,2046-01-15,1222700.16\nrestricted,6.00\nallowance,50000.00\nbudget,1000\n",
            },
            rates: Ends {
                first: b"terms,1000,1\nrate,2026-02-14,2046-01-15,3.07\noffer,2026-07-15,max,,100000000\n",
                last: b"offer,2046-01-15,2.98,,100000000\n",
            },
            prices: Ends {
                first: b"terms,1000,1000\nnote,2027-01-15,3.07,102-21,100000000\n",
                last: b"note,2038-01-15,3.07,102-15,100000000\n",
            },
        },
        Row {
            number: 1,
            issue: Ends {
                first: b"settle,2026-01-15\nneed,2026-07-15,1189441.53\nneed,2027-01-15,1173411.96\n",
                last: b"need,2046-01-15,1077394.55\nrestricted,6.00\nallowance,50000.00\nbudget,1000\n",
            },
            rates: Ends {
                first: b"terms,1000,1\nrate,2026-02-14,2046-01-15,2.74\noffer,2026-07-15,max,,100000000\n",
                last: b"offer,2046-01-15,2.62,,100000000\n",
            },
            prices: Ends {
                first: b"terms,1000,1000\nnote,2027-01-15,2.74,102-11,100000000\n",
                last: b"note,2038-01-15,2.74,102-31,100000000\n",
            },
        },
        Row {
            number: 7,
            issue: Ends {
                first: b"settle,2026-01-15\nneed,2026-07-15,1022632.31\nneed,2027-01-15,1218567.53\n",
                last: b"need,2046-01-15,1230724.45\nrestricted,6.00\nallowance,50000.00\nbudget,1000\n",
            },
            rates: Ends {
                first: b"terms,1000,1\nrate,2026-02-14,2046-01-15,4.78\noffer,2026-07-15,max,,100000000\n",
                last: b"offer,2046-01-15,4.45,,100000000\n",
            },
            prices: Ends {
                first: b"terms,1000,1000\nnote,2027-01-15,4.78,102-15,100000000\n",
                last: b"note,2038-01-15,4.78,102-29,100000000\n",
            },
        },
        Row {
            number: u64::MAX,
            issue: Ends {
                first: b"settle,2026-01-15\nneed,2026-07-15,1153323.43\nneed,2027-01-15,1075026.77\n",
                last: b"need,2046-01-15,1092842.24\nrestricted,6.00\nallowance,50000.00\nbudget,1000\n",
            },
            rates: Ends {
                first: b"terms,1000,1\nrate,2026-02-14,2046-01-15,2.88\noffer,2026-07-15,max,,100000000\n",
                last: b"offer,2046-01-15,2.82,,100000000\n",
            },
            prices: Ends {
                first: b"terms,1000,1000\nnote,2027-01-15,2.88,102-30,100000000\n",
                last: b"note,2038-01-15,2.88,102-00,100000000\n",
            },
        },
    ];
    for row in &rows {
        is_made(&rt, rt.alloc(), row)?;
    }
    Ok(())
}
