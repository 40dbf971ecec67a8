//! The line that ends a prompt.
ghost use Rattle.std.specs.Prelude.{◌≡◌, length};
ghost use Rattle.grammar_core.specs.Words.{words_of};
ghost use Rattle.prompt_core.specs.Responses.{are_quits, is_quit};

use grammar_core::LONGEST_LINE;

/// Whether each word of the line is `:quit`; yes, if the line has no words.
fn are_quits(line: &[u8]) -> bool
    ensures { result ≡ are_quits (words_of line.now) }
{
    line.split(|byte| *byte == b' ')
        .filter(|word| !word.is_empty())
        .all(|word| word == b":quit".as_slice())
}

/// How many words the line has; spaces divide them.
fn word_count(line: &[u8]) -> usize
    ensures { result ≡ length (words_of line.now) }
{
    line.split(|byte| *byte == b' ')
        .filter(|word| !word.is_empty())
        .count()
}

/// Whether the line's only word is `:quit`, and the line isn't too long. Asks for no memory.
#[tactic(auto, unfolding(crate::specs::Responses::is_quit))]
pub fn is_quit(line: &[u8]) -> bool
    ensures { result ≡ is_quit line.now }
{
    line.len() <= LONGEST_LINE && are_quits(line) && word_count(line) == 1
}
