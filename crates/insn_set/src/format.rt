//! The formats of instructions (Dalvik bytecode, "Instruction formats").

ghost use Rattle.std.specs.Prelude.{◌≡◌};
ghost use Rattle.insn_set.specs.Formats.{format_units};

/// How the fields of an instruction lie in its units: the number of units, the number of registers, and what else there
/// is, as the format's own name says.
#[derive(Clone, Copy, PartialEq, Eq, Drop)]
pub enum Format {
    F10x,
    F12x,
    F11n,
    F11x,
    F10t,
    F20t,
    F22x,
    F21t,
    F21s,
    F21h,
    F21c,
    F23x,
    F22b,
    F22t,
    F22s,
    F22c,
    F30t,
    F32x,
    F31i,
    F31t,
    F31c,
    F35c,
    F3rc,
    F51l,
}

impl Format {
    /// How many 16-bit units an instruction of this format has.
    pub fn units(self) -> u32
        ensures { result ≡ format_units self }
    {
        match self {
            Format::F10x | Format::F12x | Format::F11n | Format::F11x | Format::F10t => 1,
            Format::F30t
            | Format::F32x
            | Format::F31i
            | Format::F31t
            | Format::F31c
            | Format::F35c
            | Format::F3rc => 3,
            Format::F51l => 5,
            _ => 2,
        }
    }
}
