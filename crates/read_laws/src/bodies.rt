//! Laws of the bodies that the reader of code gives: each of them is one that a program may have.

ghost use Rattle.std.specs.Prelude.{◌≡◌, ◌-◌, ◌&&◌, ◌<◌, ◌^◌, List, ℕ, length, true, slice_get, slice_index, Ok};
ghost use Rattle.std.specs.List.{list_all, enumerate_from};
ghost use Rattle.program_model.specs.BodyRules.{ends, follows, targets_fit, leaves, is_caught, body_fits};
ghost use Rattle.insn_set.specs.Spelling.{is_encodable};
ghost use Rattle.program_model.specs.Neighbours.{neighbours};
ghost use Rattle.program_model.specs.RegionRules.{may_begin, regions_fit};
ghost use Rattle.program_model.specs.OperandRules.{registers_fit, numbers_fit};
ghost use Rattle.program_model.specs.declared.body.Body as body;
ghost use Rattle.program_model.specs.declared.program.Program as program;
ghost use Rattle.code_read.specs.Code.{code_of};
ghost use Rattle.code_read.specs.declared.sizes.Sizes as sizes;
ghost use Rattle.read_laws.specs.Tables.{AreWithin};

/// A body that is read has a last instruction, and nothing follows it.
pub fn ends_law()
    ensures { (units tries starts : List ℕ) (sizes : sizes.Sizes) (body : body.Body) → code_of units tries sizes ≡ Ok (body, starts)
        → ends (slice_get body.insns (length body.insns - 1)) ≡ true }
{}

/// A body that is read does not begin with a move of a result, and each move of a result or of an exception stands
/// behind what may come before it.
pub fn results_law()
    ensures begins { (units tries starts : List ℕ) (sizes : sizes.Sizes) (body : body.Body) → code_of units tries sizes ≡ Ok (body, starts)
        → may_begin (slice_get body.insns 0) ≡ true }
    ensures follows { (units tries starts : List ℕ) (sizes : sizes.Sizes) (body : body.Body) → code_of units tries sizes ≡ Ok (body, starts)
        → list_all follows (neighbours body.insns) ≡ true }
{}

/// The branches of a body that is read go to positions that are neither moves of results nor of exceptions.
pub fn targets_law()
    ensures { (units tries starts : List ℕ) (sizes : sizes.Sizes) (body : body.Body) → code_of units tries sizes ≡ Ok (body, starts)
        → list_all (targets_fit body.insns) body.insns ≡ true }
{}

/// At each move of an exception of a body that is read a handler of one of its regions begins.
pub fn catches_law()
    ensures { (units tries starts : List ℕ) (sizes : sizes.Sizes) (body : body.Body) → code_of units tries sizes ≡ Ok (body, starts)
        → list_all (λ at. is_caught body.regions at.0 at.1) (enumerate_from 0 body.insns) ≡ true }
{}

/// The registers of the instructions of a body that is read are those of the body, and what they name are entries of the
/// tables of the program with which it is read.
pub fn operands_law()
    ensures { (p : program.Program) (units tries starts : List ℕ) (sizes : sizes.Sizes) (body : body.Body) → AreWithin p sizes → code_of units tries sizes ≡ Ok (body, starts)
        → list_all (λ insn. registers_fit insn body.registers && numbers_fit insn p) body.insns ≡ true }
{}

/// Each region of a body that is read covers positions, has a handler and goes on at positions where one may begin; its
/// handlers are of types of the program with which it is read, and the regions lie one behind another.
pub fn regions_law()
    ensures { (p : program.Program) (units tries starts : List ℕ) (sizes : sizes.Sizes) (body : body.Body) → AreWithin p sizes → code_of units tries sizes ≡ Ok (body, starts)
        → regions_fit p body.insns body.regions ≡ true }
{}

/// No conditional branch of a body that is read goes to its own position.
pub fn leaves_law()
    ensures { (units tries starts : List ℕ) (sizes : sizes.Sizes) (body : body.Body) → length units < 2 ^ 32 → code_of units tries sizes ≡ Ok (body, starts)
        → list_all (λ at. leaves at.0 at.1) (enumerate_from 0 body.insns) ≡ true }
{}

/// Each instruction of a body that is read has a spelling, as it was read by one.
pub fn spellings_law()
    ensures { (units tries starts : List ℕ) (sizes : sizes.Sizes) (body : body.Body) → ((i : ℕ) → slice_index units i < 65536) → code_of units tries sizes ≡ Ok (body, starts)
        → list_all is_encodable body.insns ≡ true }
{}

/// So a body that is read, of fewer than 2 ^ 32 units of 16 bits, fits the program with which it is read.
pub fn bodies_law()
    ensures { (p : program.Program) (units tries starts : List ℕ) (sizes : sizes.Sizes) (body : body.Body) → AreWithin p sizes → ((i : ℕ) → slice_index units i < 65536) → length units < 2 ^ 32
        → code_of units tries sizes ≡ Ok (body, starts) → body_fits p body ≡ true }
{}
