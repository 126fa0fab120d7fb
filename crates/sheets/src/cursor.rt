ghost use Rattle.std.specs.Prelude.{◌≤◌, length};

mod expect;
mod line;
mod tokens;

// The most tokens `(` and `!` together that a line may have.
const MAX_BRACKETS: usize = 32;

// Steps through a line token by token. Each reader makes the fault itself, with its number and its place, and it travels
// up by `?` from the token reader on, a rule of the project: so the clause `stays` of each says that the place is still
// the line's.
#[derive(Drop)]
pub(crate) struct Cursor<'a> {
    // the line, as far as it is still to be read
    rest: &'a [u8],
    // where the line begins in the text
    line: usize,
    ghost short: { length rest.now ≤ 65535 },
}
