ghost use Rattle.std.specs.Prelude.{◌≡◌, ◌+◌, ◌-◌, ◌*◌, ◌^◌, ◌<◌, true};
ghost use Rattle.model.specs.Names.{is_digit};
ghost use Rattle.std.specs.Option.{SomeIff};
ghost use Rattle.sheets.specs.Tokens.{Numbered};

// The number with one digit more at its end.
fn with_digit(value: u32, b: u8) -> Option<u32>
    ensures { SomeIff result ((is_digit b ≡ true) × (value * 10 + (b - 48) < 2 ^ 32)) (value * 10 + (b - 48)) }
{
    match b {
        b'0'..=b'9' => value.checked_mul(10)?.checked_add(u32::from(b - b'0')),
        _ => None,
    }
}

// The number that a word is, if it is a decimal number of 32 bits without needless zeros.
pub(crate) fn number(word: &[u8]) -> Option<u32>
    ensures { Numbered word.now result }
{
    if word.is_empty() {
        return None;
    }
    if word[0] == b'0' && word.len() > 1 {
        return None;
    }
    let mut value = 0;
    // a loop: the closure of a `try_fold` would only hand on to `with_digit`, and be no plainer than `?`
    for b in word {
        value = with_digit(value, *b)?;
    }
    Some(value)
}
