//! The pools of the workload: the numbers that its tables give to what its classes name.

ghost use Rattle.std.specs.Prelude.{◌≡◌, ◌+◌, ◌*◌, ◌≤◌, length, IfOk};

use dex_base::Text;
use program_model::{MethodName, Proto};
use seq::Seq;
use std::alloc::{AllocError, Global};

/// The type number of `I`.
const INT: u32 = 0;
/// The type number of `Ljava/lang/Object;`.
pub const OBJECT: u32 = 1;
/// The string number of `II`, the shorty of the only proto.
const SHORTY: u32 = 1;
/// The string number of `dead`.
const DEAD: u32 = 3;
/// The string number of `run`.
const RUN: u32 = 4;
/// How many strings stand before the names of the classes.
const STRINGS_BEFORE: u32 = 5;
/// How many types stand before the classes.
const TYPES_BEFORE: u32 = 2;

/// The type number of the class with this place.
pub fn class_type(place: u32) -> u32
    requires { place ≤ 2000 }
    ensures { result ≡ place + 2 }
{
    place + TYPES_BEFORE
}

/// The method number of `dead` of the class with this place.
pub fn dead_of(place: u32) -> u32
    requires { place ≤ 2000 }
    ensures { result ≡ 2 * place }
{
    2 * place
}

/// The method number of `run` of the class with this place.
pub fn run_of(place: u32) -> u32
    requires { place ≤ 2000 }
    ensures { result ≡ 2 * place + 1 }
{
    2 * place + 1
}

/// A text of ASCII characters.
fn ascii(alloc: Global, text: &str) -> Result<Text, AllocError> {
    let mut units = Vec::new(alloc);
    for byte in text.as_bytes() {
        units.push(u16::from(*byte))?;
    }
    Ok(Text::from_vec(units))
}

/// The strings: those that all classes share, and then the descriptor of each class.
pub fn strings(alloc: Global, classes: u32) -> Result<Seq<Text>, AllocError>
    ensures { IfOk result (λ strings. length strings ≡ classes + 5) }
{
    let mut strings = Seq::new(alloc);
    for text in ["I", "II", "Ljava/lang/Object;", "dead", "run"] {
        strings.push(ascii(alloc, text)?)?;
    }
    for place in 0..classes {
        let name = format!(in alloc; "LW{place};")?;
        strings.push(ascii(alloc, name.as_str())?)?;
    }
    Ok(strings)
}

/// The types: `I`, `Ljava/lang/Object;` and the classes.
pub fn types(alloc: Global, classes: u32) -> Result<Seq<u32>, AllocError>
    requires { classes ≤ 2000 }
    ensures { IfOk result (λ types. length types ≡ classes + 2) }
{
    let mut types = Seq::new(alloc);
    types.push(0)?;
    types.push(2)?;
    for place in 0..classes {
        types.push(place + STRINGS_BEFORE)?;
    }
    Ok(types)
}

/// The only proto, `(I)I`.
pub fn protos(alloc: Global) -> Result<Seq<Proto>, AllocError>
    ensures { IfOk result (λ protos. length protos ≡ 1) }
{
    let mut parameters = Seq::new(alloc);
    parameters.push(INT)?;
    let mut protos = Seq::new(alloc);
    protos.push(Proto {
        shorty: SHORTY,
        result: INT,
        parameters,
    })?;
    Ok(protos)
}

/// The names of the methods: `dead` and `run` of each class.
pub fn methods(alloc: Global, classes: u32) -> Result<Seq<MethodName>, AllocError>
    requires { classes ≤ 2000 }
    ensures { IfOk result (λ methods. length methods ≡ 2 * classes) }
{
    let mut methods = Seq::new(alloc);
    for place in 0..classes {
        let class = class_type(place);
        methods.push(MethodName {
            class,
            proto: 0,
            name: DEAD,
        })?;
        methods.push(MethodName {
            class,
            proto: 0,
            name: RUN,
        })?;
    }
    Ok(methods)
}
