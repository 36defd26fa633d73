//! Registers as values by number.

ghost use Rattle.std.specs.Prelude.{◌≡◌, ◌==◌, ℕ, if◌then◌else◌};
ghost use Rattle.std.specs.FinMap as finite;
ghost use Rattle.domains.specs.Values.{Parts, least_value};
ghost use Rattle.dom_frame.specs.Registers.{Registers, value_at, put};

/// A register that is written holds what is put there, and each other one what it held; where nothing was put all are of
/// nothing.
pub fn registers_are_values()
    ensures put { (to : ℕ) (v : Parts) (x : Registers) (r : ℕ) → value_at (put to v x) r ≡ (if r == to then v else value_at x r) }
    ensures none { (r : ℕ) → value_at finite.empty r ≡ least_value }
{}
