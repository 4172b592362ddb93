//! Which word some bytes are, and the first lines.
ghost use Rattle.std.specs.Prelude.{◌≡◌};
ghost use Rattle.polarised_formulas.specs.declared.logic.Logic.TheVariants.{Lkf, Ljf};
ghost use Rattle.polarised_formulas.specs.PlainReading.{first_with, begins_some};
ghost use Rattle.explicit_form.specs.StepText.{word_text, words, header_word, header_text};
ghost use Rattle.explicit_form.specs.StepReading.{other};

use crate::word::{Word, word_bytes, words};
use polarised_formulas::logic::Logic;

/// The word with these bytes, if any.
pub(crate) fn word_with(logic: Logic, text: &[u8]) -> Option<Word>
    ensures { result ≡ first_with word_text text.now (words logic) }
{
    first_of(words(logic), text)
}

/// The first of these words with these bytes, if any.
fn first_of(words: &[Word], text: &[u8]) -> Option<Word>
    ensures { result ≡ first_with word_text text.now words.now }
{
    for word in words {
        if word_bytes(*word) == text {
            return Some(*word);
        }
    }
    None
}

/// Whether some word begins with these bytes.
pub(crate) fn begins_word(logic: Logic, text: &[u8]) -> bool
    ensures { result ≡ begins_some word_text text.now (words logic) }
{
    words(logic)
        .iter()
        .any(|word| word_bytes(*word).starts_with(text))
}

/// The first line of a certificate.
pub(crate) fn header_line(logic: Logic) -> &'static [u8]
    ensures { result.now ≡ header_text logic }
{
    match logic {
        Logic::Lkf => b"fpc 1 lkf\n",
        Logic::Ljf => b"fpc 1 ljf\n",
    }
}

/// The first line of a certificate for the other calculus, without its end.
pub(crate) fn other_header(logic: Logic) -> &'static [u8]
    ensures { result.now ≡ header_word (other logic) }
{
    match logic {
        Logic::Lkf => b"fpc 1 ljf",
        Logic::Ljf => b"fpc 1 lkf",
    }
}
