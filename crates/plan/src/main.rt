// The program (document 01, "Numbers answered"): reads a figures file from standard input and prints its plan by each model. What it prints
// is worked out, and proved, in `planner::reports`.
#![tactic(auto)]

ghost use Rattle.std.specs.Prelude.{◌≤◌, length, IfOk};

use std::io;
use std::io::{Read, Write};

fn main(rt: HostRuntime) -> io::Result<()> {
    // One byte more than is read, so that a text that is too long is seen to be.
    let mut text = [0; 8193];
    let end = read_full(&mut rt.stdin(), &mut text)?;
    let output = planner::reports::report(&text[..end]);
    rt.stdout().write_all(&output.bytes[..output.length])
}

// Reads until the text is full or the input ends; how many bytes it has then. By hand: std's `copy` asks for 8,192 bytes at most, and a
// packet socket that holds 8,193 drops the last, by which the text is seen to be too long.
fn read_full<R: Read>(input: &mut R, text: &mut [u8]) -> io::Result<usize>
    ensures { IfOk result (λ end. end ≤ length text.new) }
{
    let mut end = 0;
    while end < text.len() {
        let more = input.read(&mut text[end..])?;
        if more == 0 {
            break;
        }
        end += more;
    }
    Ok(end)
}
