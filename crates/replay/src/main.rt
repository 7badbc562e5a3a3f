// Answers questions in the flat form: one a line of standard input, one line of answer each. `stdin` and `stdout` are made by oracle/make.
// A question is a letter, a space and digits; most letters are asked of `flat`, which C and Rust call too.
#![tactic(auto)]

ghost use Rattle.std.specs.Prelude.{◌<◌, IfSome};

mod events;
mod flats;
mod indexes;
mod parts;
mod sames;
mod say;
mod walks;

use say::{say, up_to};
use std::io::{Read, Stdin};

// One place more than the longest question has, a letter, a space and 132,400 digits: a line that fills it is none.
const LINE: usize = 132403;

// The place of a question's digits.
const DIGITS: usize = 2;

fn digit(c: u8) -> Option<u8>
    ensures { IfSome result (λ d. d < 16) }
{
    match c {
        b'0'..=b'9' => Some(c - b'0'),
        b'A'..=b'F' => Some(c - b'A' + 10),
        _ => None,
    }
}

// Puts the bytes that a line's digits spell at its start, where none of them is read any more, and answers how many; none where they spell none.
fn decode(line: &mut [u8], filled: usize) -> Option<usize> {
    if line.len() <= filled {
        return None;
    }
    let digits = line.get(DIGITS..filled)?.len();
    if digits % 2 != 0 {
        return None;
    }
    for i in 0..digits / 2 {
        let high = digit(line[DIGITS + 2 * i])?;
        let low = digit(line[DIGITS + 2 * i + 1])?;
        line[i] = 16 * high + low;
    }
    Some(digits / 2)
}

// What is behind a place; nothing where that is past the end.
pub(crate) fn from_place(line: &[u8], at: usize) -> &[u8] {
    line.get(at..).unwrap_or_default()
}

fn answer_to(letter: u8, data: &[u8]) {
    match letter {
        b'w' => walks::walk(data),
        b'I' => indexes::index(data),
        b'F' => indexes::find(data),
        b'X' => indexes::walk(data),
        b'J' => parts::join(data),
        b'=' => sames::same(data),
        _ => flats::ask(letter, data),
    }
}

fn answer_line(line: &mut [u8], filled: usize) {
    let letter = field::byte_at(line, 0);
    let space = field::byte_at(up_to(line, filled), 1);
    if space != b' ' {
        say(b"?");
        return;
    }
    match decode(line, filled) {
        Some(n) => answer_to(letter, up_to(line, n)),
        None => say(b"?"),
    }
}

// Takes bytes of the input: a newline has the line before it answered, and what a full line has no room for is dropped. Hands back how much of a line
// there is then.
fn take_all(chunk: &[u8], line: &mut [u8], filled: usize) -> usize {
    let mut filled = filled;
    for c in chunk {
        if *c == b'\n' {
            answer_line(line, filled);
            say(b"\n");
            filled = 0;
        } else if let Some(place) = line.get_mut(filled) {
            *place = *c;
            filled += 1;
        }
    }
    filled
}

// A line that the end of the input cuts off is no question, and neither is one at which reading fails. Nothing says that the input ends, so the turns
// are counted, up to a number that no run uses up.
fn replay(stdin: &mut Stdin, line: &mut [u8]) {
    let mut filled = 0;
    for _ in 0..u64::MAX {
        let mut chunk = io::large_buffer();
        let Ok(n) = stdin.read(&mut chunk) else {
            say(b"?\n");
            return;
        };
        if n == 0 {
            if 0 < filled {
                say(b"?\n");
            }
            return;
        }
        filled = take_all(&chunk[..n], line, filled);
    }
}

fn main(rt: HostRuntime) {
    let mut line = [0u8; LINE];
    replay(&mut rt.stdin(), &mut line);
}
