//! Words that are so many.

ghost use Rattle.std.specs.Prelude.{◌≡◌, map, option_map};
ghost use Rattle.text_defs.specs.Words.{one_of, two_of, three_of, front_of};

/// The only word.
pub fn one_word<'a>(words: &[&'a [u8]]) -> Option<&'a [u8]>
    ensures { option_map (λ word. word.now) result ≡ one_of (map (λ word. word.now) words.now) }
{
    match words {
        [a] => Some(*a),
        _ => None,
    }
}

/// The two words.
pub fn two_words<'a>(words: &[&'a [u8]]) -> Option<(&'a [u8], &'a [u8])>
    ensures { option_map (λ ws. (ws.0.now, ws.1.now)) result ≡ two_of (map (λ word. word.now) words.now) }
{
    match words {
        [a, b] => Some((*a, *b)),
        _ => None,
    }
}

/// The three words.
pub fn three_words<'a>(words: &[&'a [u8]]) -> Option<(&'a [u8], &'a [u8], &'a [u8])>
    ensures { option_map (λ ws. (ws.0.now, ws.1.now, ws.2.now)) result ≡ three_of (map (λ word. word.now) words.now) }
{
    match words {
        [a, b, c] => Some((*a, *b, *c)),
        _ => None,
    }
}

/// The first three of three words and more.
pub fn front_words<'a, 'b>(
    words: &'b [&'a [u8]],
) -> Option<(&'a [u8], &'a [u8], &'a [u8], &'b [&'a [u8]])>
    ensures { option_map (λ ws. (ws.0.now, ws.1.now, ws.2.now, map (λ word. word.now) ws.3.now)) result ≡ front_of (map (λ word. word.now) words.now) }
{
    match words {
        [a, b, c, rest @ ..] => Some((*a, *b, *c, rest)),
        _ => None,
    }
}
