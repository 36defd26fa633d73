//! Laws that tie what the readers give to what stands in the bytes.

ghost use Rattle.std.specs.Prelude.{◌≡◌, List, ℕ, ℤ, ◌+◌, ◌*◌, ◌^◌, ◌<◌, ◌≤◌, ◌++◌, length, Ok, FitsSigned};
ghost use Rattle.std.specs.Int.{w16, w32, to_le_bytes};
ghost use Rattle.dex_base.specs.Reading.{each, chain};
ghost use Rattle.dex_base.specs.Word.{u16_at, u32_at, Is16, Is32, IsShort};
ghost use Rattle.dex_base.specs.Leb.{uleb_at, sleb_at, uleb_text, sleb_text, SpellsUleb, SpellsSleb, IsUlebAt, IsSlebAt, BadLeb};
ghost use Rattle.dex_base.specs.Mutf8.{text_at, text_bytes, AreUnits, IsTextAt, BadTextAt};
ghost use Rattle.dex_base.specs.Descriptor.{descriptor_of};
ghost use Rattle.dex_base.specs.Grammar.{IsDescriptor, BadDescriptorIn};
ghost use Rattle.dex_base.specs.Decides.{Decides, Entries, ChainOf, BadChain};

/// Two bytes at a place are read as their number, and only a want of bytes is a fault.
pub fn word_16_law()
    ensures { (bytes : List ℕ) (at : ℕ) → Decides (Is16 bytes at) (IsShort bytes at 2) (u16_at bytes at) }
{}

/// Four bytes at a place are read as their number, and only a want of bytes is a fault.
pub fn word_32_law()
    ensures { (bytes : List ℕ) (at : ℕ) → Decides (Is32 bytes at) (IsShort bytes at 4) (u32_at bytes at) }
{}

/// The signed number in LEB128 at a place is the one that its bytes spell, and a fault is one of these bytes.
pub fn sleb_law()
    ensures { (bytes : List ℕ) (at : ℕ) → Decides (IsSlebAt bytes at) (BadLeb bytes at) (sleb_at bytes at) }
{}

/// The number in LEB128 at a place is the one that its bytes spell, and a fault is one of these bytes.
pub fn uleb_law()
    ensures { (bytes : List ℕ) (at : ℕ) → Decides (IsUlebAt bytes at) (BadLeb bytes at) (uleb_at bytes at) }
{}

/// The text at a place is the one that its bytes spell, and a fault is one of these bytes.
pub fn text_law()
    ensures { (bytes : List ℕ) (at count : ℕ) → Decides (IsTextAt bytes at count) (BadTextAt bytes at count) (text_at bytes at count) }
{}

/// The type that a text describes is the one of the grammar, and a fault names the first unit that can't continue a descriptor.
pub fn descriptor_law()
    ensures { (text : List ℕ) → Decides (IsDescriptor text) (BadDescriptorIn text) (descriptor_of text) }
{}

/// Two and four bytes that were written are read again, whatever follows them.
pub fn written_word_law()
    ensures again_16 { (front rest : List ℕ) (n : ℕ) → n < 2 ^ 16 → u16_at (front ++ to_le_bytes w16 n ++ rest) (length front) ≡ Ok n }
    ensures again_32 { (front rest : List ℕ) (n : ℕ) → n < 2 ^ 32 → u32_at (front ++ to_le_bytes w32 n ++ rest) (length front) ≡ Ok n }
{}

/// What is written spells the number, no other spelling is shorter, and each spelling is read again, whatever follows it.
pub fn written_uleb_law()
    ensures spelled { (n : ℕ) → n < 2 ^ 32 → SpellsUleb (uleb_text n) n }
    ensures shortest { (n : ℕ) (other : List ℕ) → SpellsUleb other n → length (uleb_text n) ≤ length other }
    ensures again { (front text rest : List ℕ) (n : ℕ) → SpellsUleb text n
        → uleb_at (front ++ text ++ rest) (length front) ≡ Ok (n, length front + length text) }
{}

/// What is written spells the signed number, no other spelling is shorter, and each spelling is read again, whatever follows it.
pub fn written_sleb_law()
    ensures spelled { (z : ℤ) → FitsSigned w32 z → SpellsSleb (sleb_text z) z }
    ensures shortest { (z : ℤ) (other : List ℕ) → FitsSigned w32 z → SpellsSleb other z → length (sleb_text z) ≤ length other }
    ensures again { (front text rest : List ℕ) (z : ℤ) → SpellsSleb text z
        → sleb_at (front ++ text ++ rest) (length front) ≡ Ok (z, length front + length text) }
{}

/// A text that was written is read again, whatever follows it.
pub fn written_text_law()
    ensures { (front text rest : List ℕ) (count : ℕ) → AreUnits count text
        → text_at (front ++ text_bytes text ++ rest) (length front) count ≡ Ok (text, length front + length (text_bytes text)) }
{}

/// A table of numbers of four bytes is read entry by entry, and numbers one behind another each where the one before it ends.
pub fn table_law()
    ensures words { (bytes : List ℕ) (at count : ℕ) → Decides (Entries count (λ i. Is32 bytes (at + 4 * i)))
        (λ e. (i : ℕ) × (0 ≤ i) × (i < 0 + count) × IsShort bytes (at + 4 * i) 4 e) (each (λ i. u32_at bytes (at + 4 * i)) 0 count) }
    ensures numbers { (bytes : List ℕ) (at count : ℕ) → Decides (λ r. (length r.0 ≡ count) × ChainOf (IsUlebAt bytes) at r.0 r.1)
        (BadChain (IsUlebAt bytes) (BadLeb bytes) count at) (chain (uleb_at bytes) count at) }
{}
