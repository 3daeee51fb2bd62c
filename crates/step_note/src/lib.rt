// Noting the steps of a run: three lent words for each, as long as there is room.
#![tactic(auto)]

ghost use Rattle.std.specs.Prelude.{◌≡◌, ◌∷◌, []};
ghost use Rattle.step_note.specs.Events.{noted};

/// Notes event k in three words, if there is room: the clock after the step, its kind (0 fire, 1 wait), the rule or the ms.
pub fn note(events: &mut [u32], k: u16, clock: u32, kind: u16, value: u16)
    ensures { events.new ≡ noted events.old k (clock ∷ kind ∷ value ∷ []) }
{
    let at = 3 * (k as usize);
    if events.len() < at + 3 {
        return;
    }
    let three = [clock, u32::from(kind), u32::from(value)];
    events[at..at + 3].copy_from_slice(&three);
}
