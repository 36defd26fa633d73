//! Numbers of one to ten decimal digits.

ghost use Rattle.std.specs.Prelude.{◌≡◌};
ghost use Rattle.command_line.specs.Reading.{number_of};

/// The number that the text writes in one to ten decimal digits, or nothing if it is no such text.
pub fn read_number(text: &str) -> Option<u64>
    ensures { result ≡ number_of text.now }
{
    if text.len() > 10 || text.starts_with('+') {
        return None;
    }
    text.parse::<u64>().ok()
}
