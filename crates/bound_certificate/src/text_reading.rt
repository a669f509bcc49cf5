//! What has come of the text of a certificate.

ghost use Rattle.std.specs.Prelude.{◌≡◌, ◌≢◌, ◌≤◌, ◌+◌, ◌++◌, ◌<◌, [], false, IfOk, IfErr, List, ℕ, None, Some, Err, length};
ghost use Rattle.bound_certificate.specs.Due.{is_over};
ghost use Rattle.bound_certificate.specs.Kept.{IsKept};
ghost use Rattle.bound_certificate.specs.Moves.{EndsFault, EndsLine, IsStage, IsTextReading, Moves, Stops, fault_at, stage_lines_left};
ghost use Rattle.bound_certificate.specs.TextReading.{stage_due};
ghost use Rattle.bound_certificate.specs.declared.fault.FaultKind.TheVariants as kind_of;
ghost use Rattle.bound_certificate.specs.declared.item.Item.TheVariants as item_of;

use crate::due::Due;
use crate::fault::{CertFault, FaultKind};
use crate::item::{Fed, Item};
use crate::lent_leaf::LentLeaf;
use crate::limits::MOST_DATES;
use crate::line_step::{Step, long_step, take_step};
use crate::part::Part;
use crate::row::Numbers;
use crate::vector_room::VectorRoom;
use crate::version::Version;

/// What may stand on the next line.
#[derive(Clone, Copy, Debug, PartialEq, Eq)]
pub(crate) enum Stage {
    /// The first line, which says of which version the text is.
    First,
    /// A line of a version.
    Later { version: Version, due: Due },
}

/// What has come of the text of a certificate.
#[derive(Debug, Drop)]
pub(crate) struct TextReading {
    /// The line that is read, from 1.
    pub line: u32,
    /// What may stand on the line that is read.
    pub stage: Stage,
    /// The vectors that came.
    pub vectors: VectorRoom,
    /// What came of the line.
    pub part: Part,
    /// The leaf that was read last.
    pub leaf: LentLeaf,
    /// Why the line isn't one of a certificate; nothing more is read then.
    pub fault: Option<CertFault>,
}

impl Stage {
    /// Whether nothing is due any more.
    pub(crate) fn is_over(self) -> bool
        ensures { result ≡ is_over (stage_due self) }
    {
        match self {
            Stage::First => false,
            Stage::Later { due, .. } => due.is_over(),
        }
    }
}

// For how many need dates a leaf has prices.
fn dates_of(leaf: &LentLeaf) -> u16
    requires { length leaf.now.prices ≤ MOST_DATES }
    ensures { result ≡ length leaf.now.prices }
{
    leaf.as_leaf().prices.as_slice().len() as u16
}

impl TextReading {
    /// The line that is read is at fault.
    pub(crate) fn fail<T>(&mut self, kind: FaultKind) -> Result<T, CertFault>
        ensures fault { result ≡ Err (fault_at self.old kind) }
        ensures stopped { self.new.fault ≡ Some (fault_at self.old kind) }
        ensures leaf { self.new.leaf ≡ self.old.leaf }
    {
        let fault = CertFault {
            line: self.line,
            kind,
        };
        self.fault = Some(fault);
        Err(fault)
    }

    /// Takes a piece where nothing is due any more.
    pub(crate) fn feed_over(&mut self, piece: &[u8]) -> Result<Fed, CertFault>
        requires reading { IsTextReading self.old }
        ensures kept { IsTextReading self.new }
        ensures ok { IfOk result (λ fed. (piece.now ≡ []) × (fed ≡ record { used = 0; item = item_of.Nothing }) × (self.new ≡ self.old)) }
        ensures err { IfErr result (λ fault. (0 < length piece.now) × (fault ≡ fault_at self.old kind_of.Trailing) × (self.new.fault ≡ Some fault) × (self.new.leaf ≡ self.old.leaf)) }
    {
        if piece.is_empty() {
            return Ok(Fed {
                used: 0,
                item: Item::Nothing,
            });
        }
        self.fail(FaultKind::Trailing)
    }

    // Takes the line, whose last bytes these are.
    fn take_whole(&mut self, front: &[u8], numbers: &mut Numbers) -> Result<Step, FaultKind>
        requires front { length front.now ≤ 65_536 }
        requires reading { IsTextReading self.old }
        requires going { self.old.fault ≡ None }
        requires more { is_over (stage_due self.old.stage) ≡ false }
        ensures dates { length self.new.leaf.prices ≡ length self.old.leaf.prices }
        ensures line { self.new.line ≡ self.old.line }
        ensures fault { self.new.fault ≡ None }
        ensures ok { IfOk result (λ step. (part : List ℕ) → IsKept part self.old.part → Moves (length self.old.leaf.prices) self.old.stage step.stage self.old.vectors self.new.vectors (part ++ front.now) step.item self.new.leaf) }
        ensures ended { IfOk result (λ step. step.item ≢ item_of.Nothing) }
        ensures lent { IfOk result (λ step. step.item ≢ item_of.Leaf → self.new.leaf ≡ self.old.leaf) }
        ensures kept { IfOk result (λ step. IsStage (length self.old.leaf.prices) step.stage self.new.vectors) }
        ensures lines { IfOk result (λ step. stage_lines_left step.stage + 1 ≤ stage_lines_left self.old.stage) }
        ensures err { IfErr result (λ kind. (part : List ℕ) → IsKept part self.old.part → Stops (length self.old.leaf.prices) self.old.stage self.old.vectors (part ++ front.now) kind) }
    {
        let dates = dates_of(&self.leaf);
        if self.part.is_empty() {
            return take_step(
                self.stage,
                dates,
                &mut self.vectors,
                front,
                numbers,
                &mut self.leaf,
            );
        }
        self.part.add(front);
        if self.part.is_long() {
            return Err(long_step(self.stage, dates, self.part.head(), self.part.seen()));
        }
        take_step(
            self.stage,
            dates,
            &mut self.vectors,
            self.part.head(),
            numbers,
            &mut self.leaf,
        )
    }

    /// Takes the line, whose last bytes these are, and goes on to the next.
    pub(crate) fn end_line(
        &mut self,
        front: &[u8],
        numbers: &mut Numbers,
    ) -> Result<Item, CertFault>
        requires front { length front.now ≤ 65_536 }
        requires reading { IsTextReading self.old }
        requires going { self.old.fault ≡ None }
        requires more { is_over (stage_due self.old.stage) ≡ false }
        ensures kept { IsTextReading self.new }
        ensures ok { IfOk result (EndsLine self.old self.new front.now) }
        ensures err { IfErr result (EndsFault self.old self.new front.now) }
    {
        match self.take_whole(front, numbers) {
            Ok(step) => {
                self.part.clear();
                self.line += 1;
                self.stage = step.stage;
                Ok(step.item)
            }
            Err(kind) => self.fail(kind),
        }
    }
}
