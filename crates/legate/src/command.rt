ghost use Rattle.std.specs.Prelude.{◌≡◌, ◌↔◌, [], ◌∷◌, Some, IsTrue, map, string_bytes};
ghost use Rattle.legate.specs.Commands.{IsCommand};

/// What the program is asked to do.
#[derive(Clone, Copy, Debug, PartialEq, Eq)]
pub enum Command {
    /// To run the script.
    Run,

    /// To write the script's canonical text.
    Check,
}

/// The command that the words after the program's name are, if they are one.
pub fn command_of(words: &[String]) -> Option<Command>
    ensures run { (result ≡ Some Command.Run) ↔ IsCommand Command.Run words.now }
    ensures check { (result ≡ Some Command.Check) ↔ IsCommand Command.Check words.now }
{
    if is_one_word(words, "run") {
        Some(Command::Run)
    } else if is_one_word(words, "check") {
        Some(Command::Check)
    } else {
        None
    }
}

// Whether the words are this one word.
fn is_one_word(words: &[String], word: &str) -> bool
    ensures { IsTrue result ↔ (map string_bytes words.now ≡ word.now ∷ []) }
{
    words.len() == 1 && words[0].as_str() == word
}
