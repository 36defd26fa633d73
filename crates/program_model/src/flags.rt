//! Access flags (Dalvik executable format, "access_flags").

ghost use Rattle.std.specs.Prelude.{⊤, ◌≡◌, ◌==◌, [], ◌∷◌, codes};
ghost use Rattle.std.specs.Int.RustNames.{bit_and};

use bitflags::{Flag, bitflag_items};
use seq::Exact;

/// The access flags of a class, a field or a method. All 32 bits are kept, also those that have no name here.
#[derive(Clone, Copy, PartialEq, Eq, Debug)]
pub struct Flags(pub u32);

bitflag_items! {
    impl Flags: u32 {
        const PUBLIC = 0x1;
        const PRIVATE = 0x2;
        const PROTECTED = 0x4;
        const STATIC = 0x8;
        const FINAL = 0x10;
        const SYNCHRONIZED = 0x20;
        const VOLATILE = 0x40;
        const BRIDGE = 0x40;
        const TRANSIENT = 0x80;
        const VARARGS = 0x80;
        const NATIVE = 0x100;
        const INTERFACE = 0x200;
        const ABSTRACT = 0x400;
        const STRICT = 0x800;
        const SYNTHETIC = 0x1000;
        const ANNOTATION = 0x2000;
        const ENUM = 0x4000;
        const CONSTRUCTOR = 0x10000;
        const DECLARED_SYNCHRONIZED = 0x20000;
    }
}

impl bitflags::Flags for Flags {
    type Bits = u32;

    ghost exact = { ⊤ };

    ghost table = { (codes "PUBLIC", 1) ∷ (codes "PRIVATE", 2) ∷ (codes "PROTECTED", 4) ∷ (codes "STATIC", 8) ∷ (codes "FINAL", 16)
        ∷ (codes "SYNCHRONIZED", 32) ∷ (codes "VOLATILE", 64) ∷ (codes "BRIDGE", 64) ∷ (codes "TRANSIENT", 128) ∷ (codes "VARARGS", 128)
        ∷ (codes "NATIVE", 256) ∷ (codes "INTERFACE", 512) ∷ (codes "ABSTRACT", 1024) ∷ (codes "STRICT", 2048) ∷ (codes "SYNTHETIC", 4096)
        ∷ (codes "ANNOTATION", 8192) ∷ (codes "ENUM", 16384) ∷ (codes "CONSTRUCTOR", 65536) ∷ (codes "DECLARED_SYNCHRONIZED", 131072) ∷ [] };

    ghost set_of = { λ flags. flags.0 };

    fn flags<'a>() -> &'a [Flag<Flags>] {
        Flags::FLAGS
    }

    fn bits(&self) -> u32 {
        self.0
    }

    fn from_bits_retain(bits: u32) -> Flags {
        Flags(bits)
    }
}

impl Flags {
    /// Whether all bits of `flag` are set.
    pub fn has(self, flag: Flags) -> bool
        ensures { result ≡ (bit_and self.0 flag.0 == flag.0) }
    {
        bitflags::Flags::contains(&self, flag)
    }
}

impl Exact for Flags {
    ghost use Rattle.std.proofs.Common.{rules};

    ghost exact = { Prim.search rules };
}
