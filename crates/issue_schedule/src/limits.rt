//! Sums that keep to the limit of amounts.
ghost use Rattle.std.specs.Prelude.{◌≡◌, ◌≤◌, ◌+◌, All, IfSome};
ghost use Rattle.std.specs.List.{flat_map};
ghost use Rattle.escrow_units.specs.Flows.{total};
ghost use Rattle.escrow_units.specs.SlgsTerms.{IsSettlement};
ghost use Rattle.issue_schedule.specs.IssueTerms.{IsBond, IsCall};
ghost use Rattle.issue_schedule.specs.Limits.{limited};
ghost use Rattle.issue_schedule.specs.Needs.{bond_needs as bond_needs_of};

use crate::bond::bond_needs;
use crate::issue::Issue;
use escrow_units::{AMOUNT_LIMIT, Flow};

/// A sum with amounts added, where it keeps to the limit.
pub(crate) fn limited_sum(sum: u64, flows: &[Flow]) -> Option<u64>
    requires { sum ≤ AMOUNT_LIMIT }
    ensures { result ≡ limited (sum + total flows.now) }
{
    let mut sum = sum;
    for flow in flows {
        if flow.cents.0 > AMOUNT_LIMIT - sum {
            return None;
        }
        sum += flow.cents.0;
    }
    Some(sum)
}

/// A sum with the needs of bonds added, where it keeps to the limit.
pub(crate) fn limited_bonds(sum: u64, issue: &Issue) -> Option<u64>
    requires limit { sum ≤ AMOUNT_LIMIT }
    requires settle { IsSettlement issue.now.settle }
    requires call { IfSome issue.now.call (IsCall issue.now.settle) }
    requires bonds { All (IsBond issue.now.settle) issue.now.bonds }
    ensures { result ≡ limited (sum + total (flat_map (bond_needs_of issue.now.settle issue.now.call) issue.now.bonds)) }
{
    let mut sum = sum;
    for bond in issue.bonds.as_slice() {
        sum = limited_sum(sum, bond_needs(issue.settle, issue.call, bond).as_slice())?;
    }
    Some(sum)
}
