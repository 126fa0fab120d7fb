ghost use Rattle.std.specs.Prelude.{◌≡◌, ℕ, ◌^◌, ◌<◌, ◌⊎◌, [], ◌∷◌, length, Decides, MatchOption, ◌≢◌};
ghost use Rattle.model.specs.Assignments.{digits, Assigns, ReadsAssignment};

/// Which facts hold, from a line with one digit for each fact, top first. A newline may follow.
/// An assignment has 64 bits, so that a fact past the 64th can only have a 0.
pub fn read_assignment(text: &[u8], facts: usize) -> Option<u64>
    ensures { ReadsAssignment facts text.now result }
{
    let (line, rest) = text.split_at_checked(facts)?;
    if !ends_text(rest) {
        return None;
    }
    read_digits(line)
}

// Whether nothing is left, or one newline.
fn ends_text(rest: &[u8]) -> bool
    ensures { Decides result ((rest.now ≡ []) ⊎ (rest.now ≡ 10 ∷ [])) }
{
    match rest {
        [] => true,
        [last] => *last == b'\n',
        _ => false,
    }
}

// The digits as bits, the first as the lowest.
fn read_digits(line: &[u8]) -> Option<u64>
    ensures { MatchOption result ((x : ℕ) → x < 2 ^ 64 → line.now ≢ digits (length line.now) x) (λ x. Assigns (length line.now) x × (line.now ≡ digits (length line.now) x)) }
{
    let mut assignment = 0;
    for (fact, digit) in line.iter().enumerate() {
        match *digit as char {
            '0' => {}
            '1' => {
                if fact >= 64 {
                    return None;
                }
                assignment += 1 << fact;
            }
            _ => return None,
        }
    }
    Some(assignment)
}
