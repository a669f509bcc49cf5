//! The bonds and the amounts of an issue.
ghost use Rattle.std.specs.Prelude.{◌≡◌, [], ◌∷◌, ◌++◌, if◌then◌else◌, is_ok, nat_eq, length};

use crate::issue::Bond;
use escrow_desk::NoMemory;
use escrow_units::Flow;
use std::alloc::Global;
use std::marker::Model;

/// Old bonds, in the order of their rows. Contracts see the list of them.
#[derive(Debug, Drop)]
pub struct Bonds {
    bonds: Vec<Bond>,
}

impl Model for Bonds {
    ghost use Rattle.std.specs.Prelude.{List};
    ghost use Rattle.issue_schedule.specs.declared.issue.Bond.{Bond};

    ghost Value = { List Bond };

    ghost view = { λ b. b.bonds.items };
}

impl Bonds {
    /// These bonds.
    pub fn new(bonds: Vec<Bond>) -> Bonds
        ensures { result ≡ bonds.items }
    {
        Bonds { bonds }
    }

    /// The bonds as a slice.
    pub fn as_slice(&self) -> &[Bond]
        ensures { result.now ≡ self.now }
    {
        self.bonds.as_slice()
    }

    /// The bonds as they were given.
    pub fn into_vec(self) -> Vec<Bond>
        ensures { result.items ≡ self }
    {
        self.bonds
    }

    // No bonds.
    pub(crate) fn none(alloc: Global) -> Bonds
        ensures { result ≡ [] }
    {
        Bonds {
            bonds: Vec::new(alloc),
        }
    }

    // One more bond, at the end. Where memory ran out the bonds stay.
    pub(crate) fn push(&mut self, bond: Bond) -> Result<(), NoMemory>
        ensures { self.new ≡ (if is_ok result then self.old ++ bond ∷ [] else self.old) }
    {
        self.bonds.push(bond)?;
        Ok(())
    }
}

/// Amounts on days, in the order of their rows. Contracts see the list of them.
#[derive(Debug, Drop)]
pub struct Flows {
    flows: Vec<Flow>,
}

impl Model for Flows {
    ghost use Rattle.std.specs.Prelude.{List};
    ghost use Rattle.escrow_units.specs.declared.security.Flow.{Flow};

    ghost Value = { List Flow };

    ghost view = { λ f. f.flows.items };
}

impl Flows {
    /// These amounts.
    pub fn new(flows: Vec<Flow>) -> Flows
        ensures { result ≡ flows.items }
    {
        Flows { flows }
    }

    /// The amounts as a slice.
    pub fn as_slice(&self) -> &[Flow]
        ensures { result.now ≡ self.now }
    {
        self.flows.as_slice()
    }

    /// The amounts as they were given.
    pub fn into_vec(self) -> Vec<Flow>
        ensures { result.items ≡ self }
    {
        self.flows
    }

    // Whether there are none.
    pub(crate) fn is_empty(&self) -> bool
        ensures { result ≡ nat_eq (length self.now) 0 }
    {
        self.flows.is_empty()
    }

    // No amounts.
    pub(crate) fn none(alloc: Global) -> Flows
        ensures { result ≡ [] }
    {
        Flows {
            flows: Vec::new(alloc),
        }
    }

    // One more amount, at the end. Where memory ran out the amounts stay.
    pub(crate) fn push(&mut self, flow: Flow) -> Result<(), NoMemory>
        ensures { self.new ≡ (if is_ok result then self.old ++ flow ∷ [] else self.old) }
    {
        self.flows.push(flow)?;
        Ok(())
    }
}
