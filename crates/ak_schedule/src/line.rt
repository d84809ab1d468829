ghost use Rattle.std.specs.Prelude.{◌≡◌, ℕ, List, ◌↔◌, ◌==◌, not, position, MatchOption, IsTrue, [], ◌∷◌};
ghost use Rattle.std.specs.List.{slice_split};
ghost use Rattle.ak_schedule.specs.Line.{words, is_comment, IsFirstPart, IsFirstWord, IsPassedOver};

/// The most bytes that a line may have, without its line end (this project's choice).
pub const MOST_BYTES: usize = 4096;

/// The first word of the line, and the bytes after it. Words stand between spaces alone; a tab is
/// no blank. `None` exactly where the line has no word. Takes no memory.
pub fn next_word(line: &[u8]) -> Option<(&[u8], &[u8])>
    ensures { MatchOption result (words line.now ≡ []) (λ parts. IsFirstWord line.now parts.0.now parts.1.now) }
{
    let Some(spaces) = first_letter(line) else {
        return None;
    };
    let begun = &line[spaces..];
    match cut(begun, b' ') {
        Some((word, rest)) => return Some((word, rest)),
        None => return Some((begun, &[])),
    }
}

/// True exactly where a line is passed over: it has no word, or begins with `#`. A line of more
/// than 4,096 bytes never is. Takes no memory.
pub fn is_passed_over(line: &[u8]) -> bool
    ensures { IsTrue result ↔ IsPassedOver line.now }
{
    if line.len() > MOST_BYTES {
        return false;
    }
    if begins_comment(line) {
        return true;
    }
    next_word(line).is_none()
}

fn begins_comment(line: &[u8]) -> bool
    ensures { result ≡ is_comment line.now }
{
    match line {
        [first, ..] => *first == b'#',
        [] => false,
    }
}

// What stands before the first such byte, and what stands after it. None exactly where there is none.
fn cut(bytes: &[u8], byte: u8) -> Option<(&[u8], &[u8])>
    ensures { MatchOption result
        (slice_split (λ b. b == byte) bytes.now ≡ bytes.now ∷ [])
        (λ parts. IsFirstPart byte bytes.now parts.0.now parts.1.now) }
{
    let Some(index) = index_of(bytes, byte) else {
        return None;
    };
    Some((&bytes[..index], &bytes[index + 1..]))
}

fn index_of(bytes: &[u8], byte: u8) -> Option<usize>
    ensures { result ≡ position (λ b. b == byte) bytes.now }
{
    bytes.iter().position(|b| *b == byte)
}

// The index of the first byte that is no space.
fn first_letter(line: &[u8]) -> Option<usize>
    ensures { result ≡ position (λ b. not (b == 32)) line.now }
{
    line.iter().position(|b| *b != b' ')
}

/// The line's one word. None exactly where it has another number of words.
pub(crate) fn one_word(line: &[u8]) -> Option<&[u8]>
    ensures { MatchOption result ((a : List ℕ) → words line.now ≡ a ∷ [] → ⊥) (λ a. words line.now ≡ a.now ∷ []) }
{
    let Some((word, rest)) = next_word(line) else {
        return None;
    };
    match next_word(rest) {
        Some(_) => return None,
        None => return Some(word),
    }
}

/// The line's two words. None exactly where it has another number of words.
pub(crate) fn two_words(line: &[u8]) -> Option<(&[u8], &[u8])>
    ensures { MatchOption result
        ((a b : List ℕ) → words line.now ≡ a ∷ b ∷ [] → ⊥)
        (λ pair. words line.now ≡ pair.0.now ∷ pair.1.now ∷ []) }
{
    let Some((first, rest)) = next_word(line) else {
        return None;
    };
    match one_word(rest) {
        Some(second) => return Some((first, second)),
        None => return None,
    }
}

/// The line's three words. None exactly where it has another number of words.
pub(crate) fn three_words(line: &[u8]) -> Option<(&[u8], &[u8], &[u8])>
    ensures { MatchOption result
        ((a b c : List ℕ) → words line.now ≡ a ∷ b ∷ c ∷ [] → ⊥)
        (λ triple. words line.now ≡ triple.0.now ∷ triple.1.now ∷ triple.2.now ∷ []) }
{
    let Some((first, rest)) = next_word(line) else {
        return None;
    };
    match two_words(rest) {
        Some((second, third)) => return Some((first, second, third)),
        None => return None,
    }
}
