// The printing program: reads one image from standard input, opens it, runs at most 1,000 steps and prints a line for each.
#![tactic(auto)]

ghost use Rattle.std.specs.Prelude.{◌≡◌, ◌≤◌, length, replicate, take};
ghost use Rattle.std.proofs.Math.Option.{some};
ghost use Rattle.io.specs.Counts.{IsPrefixLen};
ghost use Rattle.meaning.specs.Print.{lines_of, printed};
ghost use Rattle.meaning.specs.Calls.{needed_of, trace_lent};
ghost use Rattle.actr_lines.specs.Text.{text as lines_text};
ghost use Rattle.actr_lines.specs.Written.{Written};

use actr_lines::{put_end, put_steps};
use meaning::State;

// Runs at most 1,000 steps from a state, with an empty store lent, and puts a line of at most 27 letters for each and the last line, of at most 26.
fn print_run(image: &[u8], state: State, table: &mut [u16], text: &mut [u8]) -> usize
    requires { 27026 ≤ length text.old }
    ensures { Written text.old 0 text.new result 27026 (lines_text (lines_of (trace_lent image.now state table.old 1000 (some (replicate 2305 0))))) }
{
    let mut events = [0u32; 3000];
    let mut store = [0u16; 2305];
    let done = calls::run_lent(image, state, table, 1000, &mut events, 1, &mut store);
    let end = put_steps(text, 0, &events, done.made);
    put_end(text, end, done.number, done.made)
}

// Opens an image and runs it, with the table that it needs; a refused opening puts the last line alone.
fn print_model(image: &[u8], table: &mut [u16], text: &mut [u8]) -> usize
    requires { (length table.old ≡ (needed_of image.now).words) × (27026 ≤ length text.old) }
    ensures { Written text.old 0 text.new result 27026 (lines_text (printed image.now)) }
{
    let opened = calls::open(image, table);
    if opened.number != 0 {
        return put_end(text, 0, opened.number, 0);
    }
    print_run(image, opened.state, table, text)
}

/// Puts the whole output for an image into the text, and answers how many letters it has. (A table has at most nine words for each of 256 rules.)
pub fn print(image: &[u8], text: &mut [u8; 27026]) -> usize
    ensures prefix_len { IsPrefixLen result text.new }
    ensures text_after { take result text.new ≡ lines_text (printed image.now) }
{
    let mut room = [0u16; 2304];
    let needed = calls::table_length(image);
    let length = needed.words as usize;
    print_model(image, &mut room[..length], text)
}

// No contract can say what is read and written: `print` says what is written for what was read.
// (One byte more is read than an image may have, so that a longer one is seen to be too long.)
fn main() {
    let mut image = [0u8; 65537];
    let n = io::read_full(0, &mut image);
    let mut text = [0u8; 27026];
    let length = print(&image[..n], &mut text);
    io::write_all(1, &text[..length]);
}
