//! Bounds of leaves over books of each kind of line, compared with figures of exact whole numbers, got apart from this program.
ghost use Rattle.std.specs.Prelude.{length, IfOk};
ghost use Rattle.node_ranges.specs.Ranges.{AreTight};
ghost use Rattle.proof_tree.specs.Tree.{IsLeaf};

use bound_certificate::read_cert;
use case_file::{Case, read_case};
use dual_bound::{Columns, bound};
use escrow_desk::FILE_LIMIT;
use escrow_units::{GREATEST_INDEX, YieldUnits};
use fixed_powers::{Powers, Side};
use node_ranges::{Ranges, range_laws};
use offer_book::Book;
use proof_tree::{Leaf, Part, TreeNode};
use std::alloc::Global;
use std::process::Abort;
use std::test::Fail;

// The input files of a case.
#[derive(Clone, Copy)]
struct Inputs<'a> {
    issue: &'a [u8],
    rates: &'a [u8],
    prices: &'a [u8],
}

// A split on the way from the root, and the side that is taken.
#[derive(Clone, Copy)]
struct Step {
    line: u16,
    at: u64,
    right: bool,
}

// A certificate of one leaf, the way to its ranges, and its bound there.
#[derive(Clone, Copy)]
struct Row {
    cert: &'static [u8],
    way: &'static [Step],
    bound: i128,
}

fn case_of(rt: &impl Abort, alloc: Global, inputs: &Inputs<'_>) -> Result<Case, Fail> {
    assert!(rt;
        inputs.issue.len() as u64 <= FILE_LIMIT
            && inputs.rates.len() as u64 <= FILE_LIMIT
            && inputs.prices.len() as u64 <= FILE_LIMIT
    );
    Ok(read_case(alloc, inputs.issue, inputs.rates, inputs.prices)?)
}

// The ranges at the end of a way from the root.
fn ranges_at(rt: &impl Abort, alloc: Global, book: &Book, way: &[Step]) -> Result<Ranges, Fail>
    ensures { IfOk result (λ ranges. AreTight book.now ranges) }
{
    range_laws();
    let _lines = book.line_count();
    let mut ranges = Ranges::root(alloc, book)?;
    for step in way {
        let line = Part::Line(step.line);
        assert!(rt; ranges.proper(line, step.at));
        ranges.narrow(book, line, step.at, step.right);
    }
    Ok(ranges)
}

// The bound of a leaf over ranges, at one unit below the limit: the short one and that of columns are the same.
fn is_bound(
    rt: &impl Abort,
    alloc: Global,
    case: &Case,
    ranges: &Ranges,
    leaf: &Leaf,
    expected: i128,
) -> Result<(), Fail>
    requires leaf { IsLeaf (length case.now.book.needs) leaf.now }
    requires tight { AreTight case.now.book ranges.now }
{
    assert!(rt; 1 <= case.limit.0 && case.limit.0 <= 3_000_000_000);
    let limit = YieldUnits(case.limit.0 - 1);
    let powers = Powers::make(alloc, limit, Side::Low, GREATEST_INDEX)?;
    let mut columns = Columns::make(alloc, &case.book, &powers)?;
    assert_eq!(rt; columns.bound(ranges, leaf), expected);
    assert_eq!(rt; bound(&case.book, &powers, ranges, leaf), expected);
    Ok(())
}

fn try_row(rt: &impl Abort, alloc: Global, case: &Case, row: &Row) -> Result<(), Fail> {
    let Ok(certificate) = read_cert(alloc, row.cert, case.book.need_count()) else {
        return Err(Fail::new("no certificate"));
    };
    let [TreeNode::Closed(leaf)] = certificate.nodes.as_slice() else {
        return Err(Fail::new("no leaf"));
    };
    let ranges = ranges_at(rt, alloc, &case.book, row.way)?;
    is_bound(rt, alloc, case, &ranges, leaf, row.bound)
}

fn try_rows(rt: &impl Abort, alloc: Global, inputs: &Inputs<'_>, rows: &[Row]) -> Result<(), Fail> {
    let case = case_of(rt, alloc, inputs)?;
    for row in rows {
        try_row(rt, alloc, &case, row)?;
    }
    Ok(())
}

#[test]
fn bounds_of_certificates(rt: HostRuntime) -> Result<(), Fail> {
    let inputs = Inputs {
        issue: b"settle,2025-01-15\nneed,2026-01-15,1041.03\nrestricted,5.00\n",
        rates: b"terms,1000,1\nrate,2025-02-14,2026-01-15,4.00\noffer,2026-01-15,max,,10000\noffer,2025-04-15,0,,10000\n",
        prices: b"",
    };
    let rows = [
        Row {
            cert: b"escrow-certificate 1\nportfolio none\ngap 0\nnodes 1\nl 1 0 961538461538\nend\n",
            way: &[],
            bound: 100_098_557_692_307_645_000_000_000,
        },
        Row {
            cert: b"escrow-certificate 1\nportfolio none\ngap 0\nnodes 1\nl 0 0 1000000000000\nend\n",
            way: &[Step {
                line: 1,
                at: 1000,
                right: false,
            }],
            bound: -999_897_500_000_000_000_000_000_000,
        },
        Row {
            cert: b"escrow-certificate 1\nportfolio none\ngap 0\nnodes 1\nl 1 0 0\nend\n",
            way: &[Step {
                line: 1,
                at: 1000,
                right: true,
            }],
            bound: 100_100_000_000_000_000_000_000_000,
        },
        Row {
            cert: b"escrow-certificate 1\nportfolio none\ngap 0\nnodes 1\nl 1 1000000000000 2000000000000\nend\n",
            way: &[],
            bound: -1_894_190_021_739_084_820_500_000_000,
        },
        Row {
            cert: b"escrow-certificate 1\nportfolio none\ngap 0\nnodes 1\nl 0 333333333333 1000000000000\nend\n",
            way: &[
                Step {
                    line: 1,
                    at: 999,
                    right: true,
                },
                Step {
                    line: 2,
                    at: 1000,
                    right: false,
                },
            ],
            bound: -1_039_680_663_522_254_940_500_000_000,
        },
        Row {
            cert: b"escrow-certificate 1\nportfolio none\ngap 0\nnodes 1\nl 1 0 1000000000000\nend\n",
            way: &[Step {
                line: 1,
                at: 9,
                right: false,
            }],
            bound: 104_103_000_000_000_000_000_000_000,
        },
        Row {
            cert: b"escrow-certificate 1\nportfolio none\ngap 0\nnodes 1\nl 1 12345 961538461538\nend\n",
            way: &[
                Step {
                    line: 1,
                    at: 5000,
                    right: true,
                },
                Step {
                    line: 1,
                    at: 5001,
                    right: false,
                },
            ],
            bound: 100_099_038_399_217_962_000_000_000,
        },
    ];
    try_rows(&rt, rt.alloc(), &inputs, &rows)
}

#[test]
fn bounds_of_notes_and_bonds(rt: HostRuntime) -> Result<(), Fail> {
    let inputs = Inputs {
        issue: b"settle,2025-01-15\nneed,2025-03-01,1234.56\nneed,2026-07-15,50000.00\nneed,2030-01-15,76543.21\ncash,5000.00\nrestricted,4.00\n",
        rates: b"terms,1000,100\nrate,2025-02-14,2064-01-15,4.250\noffer,2027-01-15,max,2026-01-15,200000\noffer,2037-04-15,3.12,,500000\noffer,2026-07-15,4.25,,1000000\noffer,2026-01-10,2.5,,50000\n",
        prices: b"",
    };
    let rows = [
        Row {
            cert: b"escrow-certificate 1\nportfolio none\ngap 0\nnodes 1\nl 0 500000000000 2000000000000 1846960513775 0\nend\n",
            way: &[
                Step {
                    line: 0,
                    at: 499999,
                    right: true,
                },
                Step {
                    line: 2,
                    at: 2500,
                    right: true,
                },
                Step {
                    line: 4,
                    at: 0,
                    right: true,
                },
                Step {
                    line: 4,
                    at: 499,
                    right: true,
                },
            ],
            bound: -205_331_087_926_759_945_701_611_205_000,
        },
        Row {
            cert: b"escrow-certificate 1\nportfolio none\ngap 0\nnodes 1\nl 0 500000000000 2000000000000 858522065569 847169139511\nend\n",
            way: &[
                Step {
                    line: 0,
                    at: 189367,
                    right: true,
                },
                Step {
                    line: 1,
                    at: 0,
                    right: true,
                },
            ],
            bound: -112_325_072_167_972_045_627_516_785_000,
        },
        Row {
            cert: b"escrow-certificate 1\nportfolio none\ngap 0\nnodes 1\nl 1 0 1000000000000 1000000000000 995303065077\nend\n",
            way: &[
                Step {
                    line: 3,
                    at: 9,
                    right: false,
                },
                Step {
                    line: 2,
                    at: 9,
                    right: false,
                },
            ],
            bound: 11_014_470_379_300_990_178_500_000_000,
        },
        Row {
            cert: b"escrow-certificate 1\nportfolio none\ngap 0\nnodes 1\nl 1 0 1000000000000 1000000000000 398176789820\nend\n",
            way: &[
                Step {
                    line: 2,
                    at: 0,
                    right: true,
                },
                Step {
                    line: 0,
                    at: 250000,
                    right: false,
                },
                Step {
                    line: 2,
                    at: 2505,
                    right: true,
                },
                Step {
                    line: 4,
                    at: 250,
                    right: false,
                },
            ],
            bound: 24_729_756_744_260_689_210_000_000_000,
        },
        Row {
            cert: b"escrow-certificate 1\nportfolio none\ngap 0\nnodes 1\nl 1 812768171897 1175105840523 1065137831182 1000000000000\nend\n",
            way: &[
                Step {
                    line: 2,
                    at: 3732,
                    right: true,
                },
                Step {
                    line: 0,
                    at: 420303,
                    right: true,
                },
            ],
            bound: 26_932_550_276_937_022_605_489_463_114,
        },
        Row {
            cert: b"escrow-certificate 1\nportfolio none\ngap 0\nnodes 1\nl 1 0 900650648128 879116071383 0\nend\n",
            way: &[
                Step {
                    line: 3,
                    at: 5000,
                    right: true,
                },
                Step {
                    line: 2,
                    at: 3850,
                    right: false,
                },
                Step {
                    line: 0,
                    at: 0,
                    right: false,
                },
                Step {
                    line: 4,
                    at: 250,
                    right: true,
                },
            ],
            bound: 7_998_441_487_095_642_879_960_130_022,
        },
        Row {
            cert: b"escrow-certificate 1\nportfolio none\ngap 0\nnodes 1\nl 0 1000000000000 2000000000000 1720199594792 1000000000000\nend\n",
            way: &[
                Step {
                    line: 2,
                    at: 2500,
                    right: false,
                },
                Step {
                    line: 4,
                    at: 0,
                    right: true,
                },
                Step {
                    line: 2,
                    at: 1250,
                    right: true,
                },
            ],
            bound: -205_063_833_085_831_888_511_773_484_500,
        },
        Row {
            cert: b"escrow-certificate 1\nportfolio none\ngap 0\nnodes 1\nl 0 369180427151 1000000000000 1000000000000 896243641608\nend\n",
            way: &[Step {
                line: 4,
                at: 499,
                right: false,
            }],
            bound: -127_850_397_806_205_602_280_565_363_388,
        },
        Row {
            cert: b"escrow-certificate 1\nportfolio none\ngap 0\nnodes 1\nl 1 0 1000000000000 0 0\nend\n",
            way: &[
                Step {
                    line: 3,
                    at: 9999,
                    right: false,
                },
                Step {
                    line: 1,
                    at: 0,
                    right: false,
                },
                Step {
                    line: 2,
                    at: 0,
                    right: false,
                },
                Step {
                    line: 0,
                    at: 499999,
                    right: true,
                },
            ],
            bound: 123_456_000_000_000_000_000_000_000,
        },
        Row {
            cert: b"escrow-certificate 1\nportfolio none\ngap 0\nnodes 1\nl 0 601450307029 2000000000000 2000000000000 1000000000000\nend\n",
            way: &[
                Step {
                    line: 0,
                    at: 0,
                    right: false,
                },
                Step {
                    line: 3,
                    at: 9999,
                    right: true,
                },
            ],
            bound: -239_744_972_706_073_400_379_036_439_000,
        },
        Row {
            cert: b"escrow-certificate 1\nportfolio none\ngap 0\nnodes 1\nl 0 0 2000000000000 926140795991 0\nend\n",
            way: &[
                Step {
                    line: 0,
                    at: 0,
                    right: false,
                },
                Step {
                    line: 2,
                    at: 9,
                    right: true,
                },
                Step {
                    line: 4,
                    at: 115,
                    right: true,
                },
            ],
            bound: -101_368_335_975_379_489_392_495_468_000,
        },
        Row {
            cert: b"escrow-certificate 1\nportfolio none\ngap 0\nnodes 1\nl 1 0 2000000000000 1000000000000 0\nend\n",
            way: &[
                Step {
                    line: 0,
                    at: 0,
                    right: false,
                },
                Step {
                    line: 2,
                    at: 0,
                    right: false,
                },
                Step {
                    line: 3,
                    at: 216,
                    right: false,
                },
            ],
            bound: 4_985_922_328_767_000_000_000_000_000,
        },
    ];
    try_rows(&rt, rt.alloc(), &inputs, &rows)
}

#[test]
fn bounds_of_marketable_notes(rt: HostRuntime) -> Result<(), Fail> {
    let inputs = Inputs {
        issue: b"settle,2025-01-15\nneed,2025-07-15,102000.00\nneed,2026-05-31,33333.33\ncash,1.00\nrestricted,3.50\n",
        rates: b"terms,1000,1\nrate,2025-02-14,2026-01-15,3.75\noffer,2025-07-15,max,,300000\n",
        prices: b"terms,1000,1000\nnote,2025-07-15,4.000,100,200000\nnote,2026-05-31,3.125,99-16+,300000\nnote,2029-08-31,0.000,85.5,100000\n",
    };
    let rows = [
        Row {
            cert: b"escrow-certificate 1\nportfolio none\ngap 0\nnodes 1\nl 1 542425113278 1000000000000 811948200614\nend\n",
            way: &[
                Step {
                    line: 4,
                    at: 0,
                    right: false,
                },
                Step {
                    line: 0,
                    at: 99,
                    right: true,
                },
                Step {
                    line: 3,
                    at: 0,
                    right: true,
                },
            ],
            bound: 12_007_266_301_631_666_288_556_767_074,
        },
        Row {
            cert: b"escrow-certificate 1\nportfolio none\ngap 0\nnodes 1\nl 0 0 2000000000000 2000000000000\nend\n",
            way: &[
                Step {
                    line: 1,
                    at: 7633,
                    right: false,
                },
                Step {
                    line: 3,
                    at: 294,
                    right: false,
                },
                Step {
                    line: 3,
                    at: 243,
                    right: false,
                },
                Step {
                    line: 1,
                    at: 3816,
                    right: true,
                },
            ],
            bound: -66_166_652_486_315_172_000_000_000_000,
        },
        Row {
            cert: b"escrow-certificate 1\nportfolio none\ngap 0\nnodes 1\nl 1 762263977918 839990228585 0\nend\n",
            way: &[
                Step {
                    line: 2,
                    at: 199,
                    right: true,
                },
                Step {
                    line: 0,
                    at: 99,
                    right: true,
                },
                Step {
                    line: 1,
                    at: 0,
                    right: true,
                },
            ],
            bound: 11_484_018_879_582_558_607_888_592_000,
        },
        Row {
            cert: b"escrow-certificate 1\nportfolio none\ngap 0\nnodes 1\nl 1 0 1543633830568 269904603841\nend\n",
            way: &[
                Step {
                    line: 3,
                    at: 299,
                    right: false,
                },
                Step {
                    line: 3,
                    at: 0,
                    right: false,
                },
            ],
            bound: -12_015_612_339_870_776_545_756_800_000,
        },
        Row {
            cert: b"escrow-certificate 1\nportfolio none\ngap 0\nnodes 1\nl 1 1000000000000 1452163724733 1265173255158\nend\n",
            way: &[
                Step {
                    line: 3,
                    at: 150,
                    right: false,
                },
                Step {
                    line: 2,
                    at: 199,
                    right: false,
                },
                Step {
                    line: 1,
                    at: 999,
                    right: true,
                },
                Step {
                    line: 4,
                    at: 0,
                    right: true,
                },
            ],
            bound: -9_683_521_899_068_843_808_797_400_000,
        },
        Row {
            cert: b"escrow-certificate 1\nportfolio none\ngap 0\nnodes 1\nl 1 0 942951295869 0\nend\n",
            way: &[Step {
                line: 0,
                at: 50,
                right: true,
            }],
            bound: 9_618_106_127_347_710_681_000_000_000,
        },
        Row {
            cert: b"escrow-certificate 1\nportfolio none\ngap 0\nnodes 1\nl 1 872340387236 2000000000000 1000000000000\nend\n",
            way: &[],
            bound: -30_019_526_139_010_786_119_634_623_600,
        },
        Row {
            cert: b"escrow-certificate 1\nportfolio none\ngap 0\nnodes 1\nl 0 0 0 0\nend\n",
            way: &[
                Step {
                    line: 3,
                    at: 299,
                    right: true,
                },
                Step {
                    line: 2,
                    at: 98,
                    right: true,
                },
                Step {
                    line: 2,
                    at: 149,
                    right: false,
                },
                Step {
                    line: 4,
                    at: 0,
                    right: true,
                },
            ],
            bound: 0,
        },
        Row {
            cert: b"escrow-certificate 1\nportfolio none\ngap 0\nnodes 1\nl 1 500000000000 1624420544167 847387085376\nend\n",
            way: &[
                Step {
                    line: 2,
                    at: 0,
                    right: true,
                },
                Step {
                    line: 4,
                    at: 50,
                    right: true,
                },
                Step {
                    line: 0,
                    at: 99,
                    right: false,
                },
            ],
            bound: -8_990_684_040_727_895_222_685_000_000,
        },
        Row {
            cert: b"escrow-certificate 1\nportfolio none\ngap 0\nnodes 1\nl 1 0 2000000000000 985916476812\nend\n",
            way: &[
                Step {
                    line: 2,
                    at: 0,
                    right: false,
                },
                Step {
                    line: 4,
                    at: 99,
                    right: true,
                },
            ],
            bound: -345_597_710_361_452_416_000_000_000,
        },
        Row {
            cert: b"escrow-certificate 1\nportfolio none\ngap 0\nnodes 1\nl 0 0 2000000000000 867321316321\nend\n",
            way: &[
                Step {
                    line: 3,
                    at: 150,
                    right: true,
                },
                Step {
                    line: 2,
                    at: 0,
                    right: false,
                },
                Step {
                    line: 4,
                    at: 99,
                    right: true,
                },
                Step {
                    line: 0,
                    at: 0,
                    right: true,
                },
            ],
            bound: -65_595_138_750_906_025_928_000_000_000,
        },
        Row {
            cert: b"escrow-certificate 1\nportfolio none\ngap 0\nnodes 1\nl 1 0 2000000000000 0\nend\n",
            way: &[],
            bound: -31_515_856_425_200_000_000_000_000_000,
        },
    ];
    try_rows(&rt, rt.alloc(), &inputs, &rows)
}

// The most lines, of the most dollars, at the greatest rate and for the longest term, at the greatest prices and weights.
#[test]
fn the_greatest_bounds(rt: HostRuntime) -> Result<(), Fail> {
    let mut rates = Vec::from_slice(
        rt.alloc(),
        b"terms,1000000,1000000\nrate,2025-02-14,2065-01-15,30.00\n",
    )?;
    for _ in 0..512 {
        rates.extend_from_slice(b"offer,2065-01-15,30.00,,1000000000\n")?;
    }
    let inputs = Inputs {
        issue: b"settle,2025-01-15\nneed,2065-01-15,100000000000.00\nrestricted,0.00\n",
        rates: rates.as_slice(),
        prices: b"",
    };
    let rows = [
        Row {
            cert: b"escrow-certificate 1\nportfolio none\ngap 0\nnodes 1\nl 1 1000000000000 2000000000000\nend\n",
            way: &[],
            bound: -645_744_873_423_942_706_591_826_432_000_000_000,
        },
        Row {
            cert: b"escrow-certificate 1\nportfolio none\ngap 0\nnodes 1\nl 0 1000000000000 2000000000000\nend\n",
            way: &[],
            bound: -696_944_873_423_942_706_591_826_432_000_000_000,
        },
    ];
    try_rows(&rt, rt.alloc(), &inputs, &rows)
}
