//! Completeness.

ghost use Rattle.std.specs.Prelude.{ℕ, List, true};
ghost use Rattle.redex_outside.specs.Held.{Held};
ghost use Rattle.redex_cli.specs.Ends.{Caused};
ghost use Rattle.redex_cli.specs.Fetching.{Failures};
ghost use Rattle.redex_cli.specs.declared.status.Status.{Status};
ghost use Rattle.dex_defs.specs.Examples.{empty_file};
ghost use Rattle.complete_law.specs.Complete.{AllInside, AreGood, EndsGood, EndsWithin, IsGoodFile};
ghost use Rattle.complete_law.specs.Standing.{AllSound, AreBytes, IsTold};
ghost use Rattle.command_line.specs.Spelling.{Spells};
ghost use Rattle.command_line.specs.declared.command.CommandWords.{CommandWords};
ghost use Rattle.redex_cli.specs.Commands.{fetches};
ghost use Rattle.redex_cli.specs.Refusals.{ReadsAll};

/// Words that spell a command which has something fetched, rules without a fault, files without one whose programs are typed,
/// a library without one, a good script, each within its limit of bytes, and no count that rose, end a run as `Done`, for want of
/// memory, or where the bytes of a file or of the library pass a limit inside. The premise is what `run` says of its status
/// (`cause` of its contract), of a shelf that tells what it holds.
pub fn complete()
    ensures { (words : List (List ℕ)) (held : Held) (fetches_old fetches_new puts_old puts_new : Failures) (notes_old notes_new : ℕ) (status : Status)
        → AreGood words held → Caused words true held fetches_old fetches_new puts_old puts_new notes_old notes_new status
        → EndsGood words held fetches_old fetches_new puts_old puts_new notes_old notes_new status }
{}

/// Where the files and the library pass no limit inside either, such a run ends as `Done`, for want of memory or where a count rose, and
/// at no limit.
pub fn complete_within()
    ensures { (words : List (List ℕ)) (held : Held) (fetches_old fetches_new puts_old puts_new : Failures) (notes_old notes_new : ℕ) (status : Status)
        → AreGood words held → ((command : CommandWords) → Spells words command → AllInside held (fetches command))
        → Caused words true held fetches_old fetches_new puts_old puts_new notes_old notes_new status
        → EndsWithin words held fetches_old fetches_new puts_old puts_new notes_old notes_new status }
{}

/// There are good files: the 140 bytes of the program of nothing are one.
pub fn a_good_file()
    ensures { IsGoodFile empty_file }
{}

/// What a refused run tells stands in what it fetched, where names hold bytes: a fault of the rules in their text, one of the file or of
/// the library in its bytes, or in the class graph or the types of the program that they spell; a limit is passed by the first name that
/// holds too much, or inside the file or the library, which has one thing more of the kind; a line of the script is outside the grammar.
/// The premise is what `run` says of its status (`cause` of its contract), of a shelf that tells what it holds.
pub fn told()
    ensures { (words : List (List ℕ)) (held : Held) (fetches_old fetches_new puts_old puts_new : Failures) (notes_old notes_new : ℕ) (status : Status)
        → AreBytes held → Caused words true held fetches_old fetches_new puts_old puts_new notes_old notes_new status
        → IsTold words held status }
{}

/// In what a run has fetched that is not refused no fault stands, where names hold bytes: the rules and the file have no fault, and
/// what it spells is typed, the library has none but of its class graph, the script spells a play, and each keeps its limit of bytes.
/// The premise is what `run` says where it has a result (`read` of `GivesFor`), of a shelf that tells what it holds.
pub fn sound()
    ensures { (words : List (List ℕ)) (held : Held) → AreBytes held → ReadsAll words held → (command : CommandWords) → Spells words command → AllSound held (fetches command) }
{}
