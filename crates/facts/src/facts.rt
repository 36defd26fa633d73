//! What the analysis answers.

ghost use Rattle.std.specs.Prelude.{◌≡◌, false, slice_index_or};
ghost use Rattle.std.specs.Option.{option_copied};
ghost use Rattle.facts.specs.Lent.{frame_at, word_at};

use dom_frame::Frame;
use domains::Value;
use seq::Seq;

/// What is known of every run of a program.
///
/// A method is named by its number, and so is a field. A register of a frame, a parameter word, a result and a field
/// have a value that holds of all that they ever are in a run. An analysis makes and fills this, and answers for what it
/// says; nothing here checks it.
#[derive(Drop)]
pub struct Facts {
    /// For each method and each position of its code the registers before the instruction, none where no run comes.
    pub frames: Vec<Seq<Option<Frame>>>,
    /// For each method its parameter words, the receiver's first and a wide parameter in two words.
    pub parameters: Vec<Seq<Value>>,
    /// For each method what it can return.
    pub results: Vec<Value>,
    /// For each field what the fields that it names can be.
    pub fields: Vec<Value>,
    /// For each method whether it is quiet.
    pub quiet: Vec<bool>,
    /// What is answered where a table has no entry: the value that anything has.
    pub any: Value,
}

impl Facts {
    /// What is known of the registers where a run comes to a position of a method, before its instruction; None where no
    /// run comes there, and where there is no such position. It takes no memory.
    pub fn at(&self, method: u32, position: u32) -> Option<&Frame>
        ensures { option_copied result ≡ frame_at self.now.frames.items method position }
    {
        match self.frames.as_slice().get(method as usize) {
            Some(frames) => match frames.as_slice().get(position as usize) {
                Some(Some(frame)) => Some(frame),
                _ => None,
            },
            None => None,
        }
    }

    /// What a parameter word of a method can be, the receiver's word first and a wide parameter in two words; anything
    /// where the method has no code or no such word. It takes no memory.
    pub fn parameter(&self, method: u32, word: u32) -> &Value
        ensures { result.now ≡ word_at self.now.any self.now.parameters.items method word }
    {
        match self.parameters.as_slice().get(method as usize) {
            Some(words) => value_at(words.as_slice(), word, &self.any),
            None => &self.any,
        }
    }

    /// What a method can return; nothing where no run returns from it, and anything where it has no code. It takes no
    /// memory.
    pub fn result(&self, method: u32) -> &Value
        ensures { result.now ≡ slice_index_or self.now.results.items method self.now.any }
    {
        value_at(self.results.as_slice(), method, &self.any)
    }

    /// What the fields can be that the program defines and that are named by this number; anything where it defines none. It
    /// takes no memory.
    pub fn field(&self, field: u32) -> &Value
        ensures { result.now ≡ slice_index_or self.now.fields.items field self.now.any }
    {
        value_at(self.fields.as_slice(), field, &self.any)
    }

    /// Whether the method is quiet: it has code, and a call of it shows nothing, changes nothing, throws nothing and
    /// ends. It takes no memory.
    pub fn quiet(&self, method: u32) -> bool
        ensures { result ≡ slice_index_or self.now.quiet.items method false }
    {
        match self.quiet.as_slice().get(method as usize) {
            Some(quiet) => *quiet,
            None => false,
        }
    }
}

/// The value at a place of a list, another one past its end.
fn value_at<'a>(values: &'a [Value], place: u32, past: &'a Value) -> &'a Value
    ensures { result.now ≡ slice_index_or values.now place past.now }
{
    match values.get(place as usize) {
        Some(value) => value,
        None => past,
    }
}
