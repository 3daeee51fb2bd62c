// One step with nothing kept, in place on a state's 88 words: the best of the matching rules fires, or time passes, or no step is made.
#![tactic(auto)]

ghost use Rattle.std.specs.Prelude.{◌≡◌, ◌≤◌, length, IfOk};
ghost use Rattle.meaning.specs.Fresh.{move_of};
ghost use Rattle.layout.specs.StateWords.{state_in};
ghost use Rattle.layout.specs.Plans.{model_on};
ghost use Rattle.step_retrieve.specs.Chains.{ChainsOn};
ghost use Rattle.step_made.specs.Made.{Added};
ghost use Rattle.fresh_step.specs.Moves.{MoveMet, placed_move};

use layout::ENTRY_WORDS;
use meaning::Reason;
use prepared::Prepared;
use step_made::Made;

/// One step of the model that a laid out image means; a step that is refused leaves the state as it is. What a firing adds to the store is in `news`.
pub fn step(
    state: &mut [u16],
    clock: u32,
    image: &Prepared,
    news: &mut [u16],
) -> Result<Made, Reason>
    requires { (88 ≤ length state.old) × ChainsOn image.now.plan image.now.tape × (88 ≤ length news.old) }
    ensures move_met { MoveMet (placed_move image.now.plan image.now.tape (state_in state.old clock)
        (move_of (model_on image.now.plan image.now.tape) (state_in state.old clock))) result state.old state.new clock }
    ensures adds { IfOk result (λ made. Added made image.now.plan image.now.tape state.old news.new) }
{
    let n = image.plan().rules as usize;
    let mut nine = [0u16; ENTRY_WORDS];
    match fresh_best::best(image.heads(), image.rows(), n, state, &mut nine) {
        Some(k) => step_made::fire(state, clock, k, image, &nine, news),
        None => step_made::wait(state, clock),
    }
}
