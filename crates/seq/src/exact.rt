//! Types whose clones are equal to what they were made of.

ghost use Rattle.std.specs.Prelude.{◌≡◌};

/// A type whose clones are equal to their source. It has no method: the law is all that it adds to `Clone`.
pub trait Exact: Clone {
    ghost exact: { (x y : Self) → Self.is_clone x y → y ≡ x };
}

impl Exact for u8 {
    ghost exact = { λ x y h. h };
}

impl Exact for u16 {
    ghost exact = { λ x y h. h };
}

impl Exact for u32 {
    ghost exact = { λ x y h. h };
}

impl Exact for u64 {
    ghost exact = { λ x y h. h };
}

impl Exact for i32 {
    ghost exact = { λ x y h. h };
}
