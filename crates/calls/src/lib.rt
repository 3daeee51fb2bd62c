// The calls: open, run and refresh, and the length of the table that they need; and the runs without a table. Each takes whatever it is handed,
// and does its work or refuses by number; none has a `requires`. The contract of a call that is only named here stands in its own crate.
#![tactic(auto)]

ghost use Rattle.std.specs.Prelude.{◌≡◌};
ghost use Rattle.meaning.specs.Calls.{needed_of};
ghost use Rattle.calls.specs.Answers.{answered, needed_in};

pub use call_open::{OpenDone, open};
pub use call_refresh::{RefreshDone, refresh};
pub use call_run::{RunDone, run, run_lent, trace};
pub use fresh_call::{FreshDone, fresh_lent, run_fresh, trace_fresh};
use meaning::{ALL_DONE, Refusal};

/// What the table's length answers: the number, the position of the refused field if there is one, else 0, and the words.
#[derive(Clone, Copy, Debug, PartialEq, Eq)]
pub struct LengthDone {
    pub number: u8,
    pub position: usize,
    pub words: u16,
}

// What the table's length answers of the words needed, or of a refusal.
fn answered(needed: Result<u16, Refusal>) -> LengthDone
    ensures { result ≡ answered needed }
{
    match needed {
        Ok(words) => LengthDone {
            number: ALL_DONE,
            position: 0,
            words,
        },
        Err(refusal) => LengthDone {
            number: refusal.reason.number(),
            position: refusal.at,
            words: 0,
        },
    }
}

// The words that the table of an image needs, or why the image is refused.
fn words_needed(image: &[u8]) -> Result<u16, Refusal>
    ensures { needed_in (answered result) ≡ needed_of image.now }
{
    let begun = read_image::begin(image, false)?;
    read_image::check(Ok(&begun))?;
    Ok(9 * begun.plan().rules)
}

/// The words that the table of an image needs: nine for each rule; and the number, which tells an image without rules from one that is refused.
pub fn table_length(image: &[u8]) -> LengthDone
    ensures { needed_in result ≡ needed_of image.now }
{
    answered(words_needed(image))
}
