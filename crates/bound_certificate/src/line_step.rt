//! What a line at hand whole leads to.
ghost use Rattle.std.specs.Prelude.{◌≡◌, ◌≢◌, ◌≤◌, ◌<◌, ◌+◌, false, IfOk, IfErr, List, ℕ, length};
ghost use Rattle.bound_certificate.specs.Due.{is_over};
ghost use Rattle.bound_certificate.specs.LongLine.{IsLongLine};
ghost use Rattle.bound_certificate.specs.Moves.{IsStage, Moves, Stops, stage_lines_left};
ghost use Rattle.bound_certificate.specs.TextReading.{stage_due};
ghost use Rattle.bound_certificate.specs.declared.item.Item.TheVariants as item_of;
ghost use Rattle.bound_certificate.specs.declared.text_reading.Stage.TheVariants as stage_of;

use crate::due::Due;
use crate::fault::FaultKind;
use crate::item::Item;
use crate::lent_leaf::LentLeaf;
use crate::limits::MOST_DATES;
use crate::long_line::long_fault;
use crate::row::Numbers;
use crate::seen::Seen;
use crate::taken::take_line;
use crate::text_reading::Stage;
use crate::vector_room::VectorRoom;
use crate::version::Version;

/// What a line says, and what may stand behind it.
#[derive(Clone, Copy, Debug, PartialEq, Eq)]
pub(crate) struct Step {
    pub item: Item,
    pub stage: Stage,
}

// Takes a line of a version.
fn take_due(
    version: Version,
    due: Due,
    dates: u16,
    vectors: &mut VectorRoom,
    line: &[u8],
    numbers: &mut Numbers,
    leaf: &mut LentLeaf,
) -> Result<Step, FaultKind>
    requires dates { dates ≤ MOST_DATES }
    requires leaf { length leaf.old.prices ≡ dates }
    requires stage { IsStage dates (stage_of.Later version due) vectors.old }
    requires going { is_over due ≡ false }
    ensures dates { length leaf.new.prices ≡ dates }
    ensures ok { IfOk result (λ step. Moves dates (stage_of.Later version due) step.stage vectors.old vectors.new line.now step.item leaf.new) }
    ensures lent { IfOk result (λ step. step.item ≢ item_of.Leaf → leaf.new ≡ leaf.old) }
    ensures kept { IfOk result (λ step. IsStage dates step.stage vectors.new) }
    ensures lines { IfOk result (λ step. stage_lines_left step.stage + 1 ≤ stage_lines_left (stage_of.Later version due)) }
    ensures err { IfErr result (Stops dates (stage_of.Later version due) vectors.old line.now) }
{
    let item = take_line(version, due, dates, vectors, line, numbers, leaf)?;
    Ok(Step {
        item,
        stage: Stage::Later {
            version,
            due: due.after(version, item),
        },
    })
}

/// Takes a line where it stands.
///
/// # Errors
///
/// Why the line isn't one that may stand there.
pub(crate) fn take_step(
    stage: Stage,
    dates: u16,
    vectors: &mut VectorRoom,
    line: &[u8],
    numbers: &mut Numbers,
    leaf: &mut LentLeaf,
) -> Result<Step, FaultKind>
    requires dates { dates ≤ MOST_DATES }
    requires leaf { length leaf.old.prices ≡ dates }
    requires stage { IsStage dates stage vectors.old }
    requires going { is_over (stage_due stage) ≡ false }
    ensures dates { length leaf.new.prices ≡ dates }
    ensures ok { IfOk result (λ step. Moves dates stage step.stage vectors.old vectors.new line.now step.item leaf.new) }
    ensures lent { IfOk result (λ step. step.item ≢ item_of.Leaf → leaf.new ≡ leaf.old) }
    ensures kept { IfOk result (λ step. IsStage dates step.stage vectors.new) }
    ensures lines { IfOk result (λ step. stage_lines_left step.stage + 1 ≤ stage_lines_left stage) }
    ensures err { IfErr result (Stops dates stage vectors.old line.now) }
{
    match stage {
        Stage::First => take_due(
            Version::of_title(line),
            Due::Title,
            dates,
            vectors,
            line,
            numbers,
            leaf,
        ),
        Stage::Later { version, due } => take_due(
            version, due, dates, vectors, line, numbers, leaf,
        ),
    }
}

/// Why a line that is longer than any right one may not stand where it stands, by its first bytes and what its words are.
pub(crate) fn long_step(stage: Stage, dates: u16, head: &[u8], seen: Seen) -> FaultKind
    requires { dates ≤ MOST_DATES }
    ensures { (vectors : List (List ℕ)) (line : List ℕ) → IsLongLine head.now seen line → Stops dates stage vectors line result }
{
    match stage {
        Stage::First => long_fault(Version::One, Due::Title, dates, head, seen),
        Stage::Later { version, due } => long_fault(version, due, dates, head, seen),
    }
}
