ghost use Rattle.std.specs.Prelude.{◌≡◌, ◌+◌, ◌≤◌, [], ◌∷◌, Ok, Err, length, position, MatchOption, MatchResult, ◌==◌};
ghost use Rattle.std.specs.Iterator.{item_count, YieldsFirstBy};
ghost use Rattle.sheets.specs.Lines.{Parts};

use crate::cursor::Cursor;
use crate::heading::{check_text, version};
use model::{Fault, Refusal};

// The lines of a sheet that say something, each as a cursor at its first byte.
#[derive(Drop)]
pub(crate) struct Lines<'a> {
    // the text from the next line on
    rest: &'a [u8],
    // where the text ends: what is left tells where the next line begins, which is worked out only for a line that is
    // handed out
    end: usize,
    ghost inside: { length rest.now ≤ end },
    ghost short: { end ≤ 65535 },
}

impl<'a> Lines<'a> {
    ghost use Rattle.sheets.specs.Cursors.{current, left, to_come};
    ghost use Rattle.sheets.specs.Lines.{later, lines_from};
    ghost use Rattle.sheets.specs.Sheets.{Opens};

    // The lines after the first, which has this mark.
    pub(crate) fn open(text: &'a [u8], mark: &[u8]) -> Result<Lines<'a>, Fault>
        ensures { MatchResult result (λ lines. Opens mark.now text.now (Ok tt) × (left lines ≡ later (lines_from 0 text.now))) (λ f. Opens mark.now text.now (Err f)) }
    {
        check_text(text)?;
        let (heading, rest) = split_line(text);
        match version(heading, mark) {
            Some(1) => Ok(Lines {
                rest,
                end: text.len(),
            }),
            Some(_) => Err(Refusal::WrongVersion.at(0)),
            None => Err(Refusal::BadHeading.at(0)),
        }
    }

    // Passes the empty lines that come next. To cut each off as a line of its own would cost twice as much.
    fn pass_empty(&mut self)
        ensures says { to_come self.new ≡ to_come self.old }
        ensures fewer { length (left self.new) ≤ length (left self.old) }
    {
        while let Some((b'\n', rest)) = self.rest.split_first() {
            self.rest = rest;
        }
    }

    // The next line, whatever it says.
    fn next_line(&mut self) -> Option<Cursor<'a>>
        ensures { MatchOption result ((left self.old ≡ []) × (left self.new ≡ [])) (λ line. left self.old ≡ current line ∷ left self.new) }
    {
        if self.rest.is_empty() {
            return None;
        }
        let (line, rest) = split_line(self.rest);
        let place = self.end - self.rest.len();
        self.rest = rest;
        Some(Cursor::new(line, place))
    }
}

impl<'a> Iterator for Lines<'a> {
    ghost use Rattle.sheets.specs.Cursors.{current, to_come};

    type Item = Cursor<'a>;

    ghost next_gives = { YieldsFirstBy current to_come };

    ghost remaining = { item_count to_come };

    fn next(&mut self) -> Option<Cursor<'a>> {
        loop {
            self.pass_empty();
            let line = self.next_line()?;
            if !line.is_silent() {
                return Some(line);
            }
        }
    }
}

// The first line of a text, and what comes after its newline.
fn split_line(text: &[u8]) -> (&[u8], &[u8])
    ensures { Parts text.now result.0.now result.1.now }
{
    match newline(text) {
        Some(end) => (&text[..end], &text[end + 1..]),
        None => text.split_at(text.len()),
    }
}

// Where the first newline is.
fn newline(text: &[u8]) -> Option<usize>
    ensures { result ≡ position (λ b. b == 10) text.now }
{
    text.iter().position(|b| *b == b'\n')
}
