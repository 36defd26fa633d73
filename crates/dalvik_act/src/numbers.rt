//! What an instruction on numbers does (Dalvik bytecode, "unop", "binop", "cmpkind").

ghost use Rattle.std.specs.Prelude.{◌≡◌, IsTrue};
ghost use Rattle.std.specs.Option.{option_map};
ghost use Rattle.dalvik_defs.specs.Operators.{OneWord};
ghost use Rattle.dalvik_numbers.specs.Kinds.{number_is};
ghost use Rattle.dalvik_state.specs.Frames.{Leaves};
ghost use Rattle.dalvik_act.specs.Acted.{IsSafely};
ghost use Rattle.dalvik_act.specs.Acting.{ActsOn, is_number};

use crate::going::gives_number;
use dalvik_numbers::{FloatTable, Number, binary, compare, literal, unary};
use dalvik_state::{Effect, Frame};
use program_model::Insn;

/// A word as a number.
fn one_word(word: Option<u32>) -> Option<Number>
    ensures { option_map number_is result ≡ option_map OneWord word }
{
    match word {
        Some(word) => Some(Number::OneWord(word)),
        None => None,
    }
}

/// Comparisons and arithmetic.
pub fn act_numbers<'a>(floats: &FloatTable, frame: &mut Frame<'a>, insn: &'a Insn) -> Effect<'a>
    ensures left { Leaves result frame.old frame.new }
    ensures acts { IsTrue (is_number insn.now) → ActsOn floats.now insn.now frame.old frame.new result }
    ensures safe { IsSafely frame.old frame.new result }
{
    match insn {
        Insn::Cmp { op, to, a, b } => {
            let word = compare(floats, *op, frame.get(*a).number(), frame.get(*b).number());
            gives_number(frame, *to, Some(Number::OneWord(word)))
        }
        Insn::Unary { op, to, from } => {
            let number = unary(floats, *op, frame.get(*from).number());
            gives_number(frame, *to, Some(number))
        }
        Insn::Binary { op, to, a, b } => {
            let number = binary(floats, *op, frame.get(*a).number(), frame.get(*b).number());
            gives_number(frame, *to, number)
        }
        Insn::Literal { op, to, a, value } => {
            let word = literal(*op, frame.get(*a).word(), *value);
            gives_number(frame, *to, one_word(word))
        }
        _ => Effect::Stuck,
    }
}
