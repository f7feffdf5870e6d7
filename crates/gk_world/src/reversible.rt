//! Slots whose changes can each be undone.
ghost use Rattle.std.specs.Prelude.{◌≡◌, IfOk, IfErr, OnOk, OnErr};
ghost use Rattle.gk_world.specs.declared.refusals.WorldFault.{WorldFault};

use crate::refusals::WorldFault;

/// Slots whose changes can be undone, the newest first. An undo is an ordinary value: dropping it makes its change
/// permanent.
pub trait Reversible {
    type Change: Drop;

    type Undo: Drop;

    /// The slots as contracts see them: one list, or a few lists.
    ghost Slots: { Type 0 };

    ghost slots: { Self → Slots };

    /// Whether an undo fits these slots.
    ghost fits: { Self.Undo → Slots → Type 0 };

    /// The slots before the change.
    ghost undone: { Self.Undo → Slots → Slots };

    /// Whether an undo leads from these slots to those, on the maps that they represent. Each of its names has its old
    /// text again, or is gone, and the rest stays.
    ghost undoes: { Self.Undo → Slots → Slots → Type 0 };

    /// Whether an allowed change can lead from these slots to those.
    ghost stepped: { Self.Change → Slots → Slots → Type 0 };

    /// Whether a change can be refused at these slots with this fault.
    ghost refuses: { Self.Change → Slots → WorldFault → Type 0 };

    /// Whether a change can be passed to `apply`.
    ghost can_apply: { Self.Change → Type 0 } = { λ _. Unit {0} };

    /// Makes a change, and returns its undo, which restores the slots before it. So each older undo that fitted before
    /// the change fits again after the undo. A refusal changes nothing.
    fn apply(&mut self, change: Self::Change) -> Result<Self::Undo, WorldFault>
        requires { can_apply change }
        ensures fits { IfOk result (λ u. fits u (slots self.new)) }
        ensures before { IfOk result (λ u. undone u (slots self.new) ≡ slots self.old) }
        ensures done { OnOk result (stepped change (slots self.old) (slots self.new)) }
        ensures err { OnErr result (slots self.new ≡ slots self.old) }
        ensures refused { IfErr result (refuses change (slots self.old)) };

    /// Undoes a change. It doesn't allocate.
    fn undo(&mut self, undo: Self::Undo)
        requires { fits undo (slots self.old) }
        ensures slots { slots self.new ≡ undone undo (slots self.old) }
        ensures maps { undoes undo (slots self.old) (slots self.new) };
}
