//! What is done to the outside.

ghost use Rattle.std.specs.Prelude.{◌≡◌, map, OnErr, OnOk};
ghost use Rattle.escrow_desk.specs.Content.{told_map};
ghost use Rattle.escrow_desk.specs.Counts.{CountsWrite};
ghost use Rattle.escrow_top.specs.Effects.{FailedIn, IsPartOf, effect_view, with_effect, with_effects};

use escrow_desk::{Desk, Failed, say_all, write_all};

/// What is done to the outside.
#[derive(Clone, Copy)]
pub(crate) enum Effect<'a> {
    /// The file of this name is written whole, with these bytes.
    Write(&'a str, &'a [u8]),
    /// This text is said.
    Say(&'a [u8]),
}

// Does one.
fn carry<D: Desk>(desk: &mut D, effect: Effect<'_>) -> Result<(), Failed>
    ensures whole { OnOk result (D.told desk.new ≡ told_map (with_effect (effect_view effect.entry)) (D.told desk.old)) }
    ensures part { OnErr result (IsPartOf (D.told desk.old) (effect_view effect.entry) (D.told desk.new)) }
    ensures counts { CountsWrite result (D.counts desk.old) (D.counts desk.new) }
{
    match effect {
        Effect::Write(name, bytes) => write_all(desk, name, bytes),
        Effect::Say(text) => say_all(desk, text),
    }
}

/// Does all of them, one after another, up to the first that fails.
///
/// # Errors
///
/// `Failed` where a call of the desk failed.
pub(crate) fn carry_all<D: Desk>(desk: &mut D, effects: &[Effect<'_>]) -> Result<(), Failed>
    ensures whole { OnOk result (D.told desk.new ≡ told_map (with_effects (map effect_view effects.now)) (D.told desk.old)) }
    ensures part { OnErr result (FailedIn (D.told desk.old) (map effect_view effects.now) (D.told desk.new)) }
    ensures counts { CountsWrite result (D.counts desk.old) (D.counts desk.new) }
{
    for effect in effects {
        carry(desk, *effect)?;
    }
    Ok(())
}
