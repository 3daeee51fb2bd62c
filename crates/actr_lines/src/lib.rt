// The lines of a run in letters, one after the other into lent bytes.
// (Not by `Display`: for all that the contract of `write!` says it may answer `Err`, and here every letter has to come, whatever the line.)
#![tactic(auto)]

ghost use Rattle.std.specs.Prelude.{◌+◌, ◌*◌, ◌≤◌, length};
ghost use Rattle.meaning.specs.Print.{stepped, end};
ghost use Rattle.step_note.specs.Events.{event_by};
ghost use Rattle.actr_lines.specs.Text.{decimal, letters, text as lines_text};
ghost use Rattle.actr_lines.specs.Written.{Written, word, lines_in};

// Puts bytes into the text from `at` on, and answers where they end.
fn put(text: &mut [u8], at: usize, bytes: &[u8]) -> usize
    requires { at + length bytes.now ≤ length text.old }
    ensures { Written text.old at text.new result (length bytes.now) bytes.now }
{
    let end = at + bytes.len();
    text[at..end].copy_from_slice(bytes);
    end
}

// Puts a number's decimal digits.
fn put_number(text: &mut [u8], at: usize, n: u32) -> usize
    requires { at + 10 ≤ length text.old }
    ensures { Written text.old at text.new result 10 (decimal n) }
{
    let mut room = [0; 20];
    let k = io::decimal(u64::from(n), &mut room);
    put(text, at, &room[..k])
}

// Puts what a step was, by its kind: 0 a firing, else a wait. (A number, since three words an event are the interface for C.)
fn put_kind(text: &mut [u8], at: usize, kind: u32) -> usize
    requires { at + 6 ≤ length text.old }
    ensures { Written text.old at text.new result 6 (word kind) }
{
    if kind == 0 {
        put(text, at, b" fire ")
    } else {
        put(text, at, b" wait ")
    }
}

// Puts the line of a step: the clock after it, its kind, the rule or the ms.
fn put_step(text: &mut [u8], at: usize, clock: u32, kind: u32, value: u32) -> usize
    requires { at + 27 ≤ length text.old }
    ensures { Written text.old at text.new result 27 (letters (stepped clock (event_by kind value))) }
{
    let after_clock = put_number(text, at, clock);
    let after_kind = put_kind(text, after_clock, kind);
    let after_value = put_number(text, after_kind, value);
    put(text, after_value, b"\n")
}

/// Puts the lines of the first `made` steps of those that three words each tell.
pub fn put_steps(text: &mut [u8], at: usize, events: &[u32], made: u16) -> usize
    requires { (3 * made ≤ length events.now) × (at + 27 * made ≤ length text.old) }
    ensures { Written text.old at text.new result (27 * made) (lines_text (lines_in events.now 0 made)) }
{
    let mut end = at;
    for k in 0..usize::from(made) {
        end = put_step(
            text,
            end,
            events[3 * k],
            events[3 * k + 1],
            events[3 * k + 2],
        );
    }
    end
}

/// Puts the last line: the number and the steps made.
pub fn put_end(text: &mut [u8], at: usize, number: u8, made: u16) -> usize
    requires { at + 26 ≤ length text.old }
    ensures { Written text.old at text.new result 26 (letters (end number made)) }
{
    let after_word = put(text, at, b"end ");
    let after_number = put_number(text, after_word, u32::from(number));
    let after_blank = put(text, after_number, b" ");
    let after_made = put_number(text, after_blank, u32::from(made));
    put(text, after_made, b"\n")
}
