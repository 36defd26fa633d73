//! What the lines of a method have to be.

ghost use Rattle.std.specs.Prelude.{◌≡◌, nat_eq, nat_le, not};
ghost use Rattle.std.specs.List.{list_all, list_any};
ghost use Rattle.program_model.specs.Neighbours.{neighbours};
ghost use Rattle.program_model.specs.LineRules.{goes_on_with_lines, lines_fit};

/// The greatest line.
const LAST_LINE: u32 = 2_147_483_647;

/// Whether some line is not 0, which is no line.
fn has_line(lines: &[u32]) -> bool
    ensures { result ≡ list_any (λ line. not (nat_eq line 0)) lines.now }
{
    lines.iter().any(|line| *line != 0)
}

/// Whether no line is above the greatest.
fn are_lines(lines: &[u32]) -> bool
    ensures { result ≡ list_all (λ line. nat_le line 2147483647) lines.now }
{
    lines.iter().all(|line| *line <= LAST_LINE)
}

/// Whether no 0 stands behind a line.
fn go_on(lines: &[u32]) -> bool
    ensures { result ≡ list_all goes_on_with_lines (neighbours lines.now) }
{
    lines
        .iter()
        .zip(lines.iter().skip(1))
        .all(|(line, next)| *line == 0 || *next != 0)
}

/// Whether the lines are none, or one for each of so many positions, not all 0, and no 0 behind a line.
#[tactic(auto, unfolding(crate::specs::LineRules::lines_fit))]
pub(crate) fn lines_fit(positions: usize, lines: &[u32]) -> bool
    ensures { result ≡ lines_fit positions lines.now }
{
    lines.len() == 0
        || ((lines.len() == positions && has_line(lines)) && (are_lines(lines) && go_on(lines)))
}
