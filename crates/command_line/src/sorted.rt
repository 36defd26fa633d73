//! What the words behind a command say, by what it is.

ghost use Rattle.std.specs.Prelude.{◌≡◌, [], ◌∷◌, MatchOption};
ghost use Rattle.std.specs.Vec.Iter.{into_iter_items};
ghost use Rattle.command_line.specs.Reading.{one_word, two_words, three_words, four_words, one_at_most};

use crate::command::Tell;
use crate::word::Word;
use seq::Seq;
use std::vec::IntoIter;

/// What the words say together.
#[derive(Drop)]
pub struct Sorted {
    pub plain: Seq<Word>,
    pub tells: Seq<Tell>,
    /// How often `--inline` stands.
    pub inlines: usize,
    pub libraries: Seq<Word>,
}

fn front_word(words: &mut IntoIter<Word>) -> Option<Word>
    ensures { MatchOption result (into_iter_items words.old ≡ []) (λ word. into_iter_items words.old ≡ word ∷ into_iter_items words.new) }
{
    words.next()
}

/// The only word.
pub fn one_word(words: Seq<Word>) -> Option<Word>
    ensures { result ≡ one_word words }
{
    let mut words = words.into_vec().into_iter();
    let first = front_word(&mut words)?;
    match front_word(&mut words) {
        None => Some(first),
        Some(_) => None,
    }
}

/// The two words, where there are two.
pub fn two_words(words: Seq<Word>) -> Option<(Word, Word)>
    ensures { result ≡ two_words words }
{
    let mut words = words.into_vec().into_iter();
    let first = front_word(&mut words)?;
    let second = front_word(&mut words)?;
    match front_word(&mut words) {
        None => Some((first, second)),
        Some(_) => None,
    }
}

/// The three words, where there are three.
pub fn three_words(words: Seq<Word>) -> Option<(Word, Word, Word)>
    ensures { result ≡ three_words words }
{
    let mut words = words.into_vec().into_iter();
    let first = front_word(&mut words)?;
    let second = front_word(&mut words)?;
    let third = front_word(&mut words)?;
    match front_word(&mut words) {
        None => Some((first, second, third)),
        Some(_) => None,
    }
}

/// The four words, where there are four.
pub fn four_words(words: Seq<Word>) -> Option<(Word, Word, Word, Word)>
    ensures { result ≡ four_words words }
{
    let mut words = words.into_vec().into_iter();
    let first = front_word(&mut words)?;
    let second = front_word(&mut words)?;
    let third = front_word(&mut words)?;
    let fourth = front_word(&mut words)?;
    match front_word(&mut words) {
        None => Some((first, second, third, fourth)),
        Some(_) => None,
    }
}

/// No word or the only one, and nothing where there are more.
pub fn one_at_most(words: Seq<Word>) -> Option<Option<Word>>
    ensures { result ≡ one_at_most words }
{
    let mut words = words.into_vec().into_iter();
    let Some(first) = front_word(&mut words) else {
        return Some(None);
    };
    match front_word(&mut words) {
        None => Some(Some(first)),
        Some(_) => None,
    }
}
