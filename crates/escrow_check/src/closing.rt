//! Whether a leaf or a point is closed.
ghost use Rattle.std.specs.Prelude.{◌≡◌, ◌*◌, ◌^◌, ◌-◌, ◌≤◌, ◌<◌, ◌-ℤ◌, ◌*ℤ◌, int_lt, length, pos, unsigned_abs};
ghost use Rattle.case_file.specs.Case.{case_view};
ghost use Rattle.dual_bound.specs.Closing.{is_closed_leaf as is_closed_leaf_of, is_closed_point as is_closed_point_of};
ghost use Rattle.node_ranges.specs.Ranges.{AreTight};
ghost use Rattle.node_ranges.specs.Claims.{bears_out_by as bears_out_of, costs_enough as costs_enough_of, low_ends};
ghost use Rattle.offer_book.specs.Portfolio.{IsPermitted};
ghost use Rattle.proof_tree.specs.Tree.{IsLeaf};
ghost use Rattle.fixed_powers.specs.declared.side.Side.TheVariants as side;
ghost use Rattle.escrow_check.specs.Trial.{AreColumnsOf, ArePowersOf, IsClaim};

use case_file::Case;
use cash_table::{Plan, cost, point_excluded};
use dual_bound::Columns;
use fixed_powers::Powers;
use node_ranges::Ranges;
use offer_book::{Book, COEFFICIENT_SCALE};
use proof_tree::{Leaf, PRICE_SCALE};

// A leaf bears out a claim, by how much it weighs a cent of cost, where its bound is more than that of a cent less.
fn bears_out(rho: u64, bound: i128, claim: Option<i128>) -> bool
    requires weight { rho ≤ PRICE_SCALE }
    requires claim { IsClaim claim }
    ensures { result ≡ bears_out_of rho bound claim }
{
    let Some(least) = claim else {
        return false;
    };
    let weight = u128::from(COEFFICIENT_SCALE) * u128::from(rho);
    weight as i128 * (least - 1) < bound
}

/// Whether a leaf is closed over ranges. The columns are priced at it, in a room where leaves near to it were.
pub(crate) fn is_closed_leaf(
    case: &Case,
    columns: &mut Columns,
    claim: Option<i128>,
    ranges: &Ranges,
    leaf: &Leaf,
    room: usize,
) -> bool
    requires columns { AreColumnsOf (case_view case.now) columns.old }
    requires claim { IsClaim claim }
    requires ranges { AreTight case.now.book ranges.now }
    requires leaf { IsLeaf (length case.now.book.needs) leaf.now }
    ensures closed { result ≡ is_closed_leaf_of (case_view case.now) claim ranges.now leaf.now }
    ensures columns { columns.new ≡ record columns.old { leaf = leaf.now } }
{
    let bound = columns.bound_near(room, ranges, leaf);
    if leaf.rho == 0 {
        0 < bound
    } else {
        bears_out(leaf.rho, bound, claim)
    }
}

// Sets a portfolio to the low ends of the lines' ranges.
fn put_low_ends(book: &Book, ranges: &Ranges, plan: &mut Plan)
    requires ranges { length ranges.now.lines ≡ length book.now.lines }
    requires plan { length plan.old ≡ length book.now.lines }
    ensures { plan.new ≡ low_ends ranges.now }
{
    for line in 0..book.line_count() {
        plan.put(line, ranges.low(line));
    }
}

// Whether a single portfolio costs no less than is claimed.
fn costs_enough(book: &Book, claim: Option<i128>, plan: &Plan) -> bool
    requires { IsPermitted book.now plan.now }
    ensures { result ≡ costs_enough_of book.now claim plan.now }
{
    let Some(least) = claim else {
        return false;
    };
    least <= i128::from(cost(book, plan).0)
}

/// Whether a point is closed over ranges. The portfolio that they hold is put into `plan`.
pub(crate) fn is_closed_point(
    case: &Case,
    powers: &Powers,
    claim: Option<i128>,
    ranges: &Ranges,
    plan: &mut Plan,
) -> bool
    requires powers { ArePowersOf (case_view case.now) powers.now }
    requires ranges { AreTight case.now.book ranges.now }
    requires plan { length plan.old ≡ length case.now.book.lines }
    ensures value { result ≡ is_closed_point_of (case_view case.now) claim ranges.now }
    ensures plan { length plan.new ≡ length case.now.book.lines }
{
    if !ranges.single() {
        return false;
    }
    put_low_ends(&case.book, ranges, plan);
    point_excluded(&case.book, powers, plan) || costs_enough(&case.book, claim, plan)
}
