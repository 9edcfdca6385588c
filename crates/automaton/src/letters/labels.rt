// The label of the state that a letter automaton is in.
ghost use Rattle.std.specs.Prelude.{◌≡◌, List};
ghost use Rattle.automaton.specs.Labels.{word, spelt, keyword_words, Label};
ghost use Rattle.automaton.specs.Meaning.{automaton_book, Took};

use crate::letters::LetterAutomaton;
use cells::letters::{Letter, LetterCell};
use finders::replays::replay;

impl<'a> LetterAutomaton<'a> {
    /// The label of the state: of the letters taken since the making or the latest clear, the longest suffix that
    /// begins some keyword. It is looked for place by place.
    pub fn label(&self) -> &'a [LetterCell]
        ensures { (letters : List Letter) → Took self.now letters → Label (keyword_words (automaton_book self.now)) (word letters) (spelt result.now) }
    {
        self.tables.label(self.state)
    }
}

/// Clears an automaton, gives it letters in turn and answers its label: the longest suffix of the letters that begins
/// some keyword.
pub fn label_after<'a>(automaton: &mut LetterAutomaton<'a>, letters: &[Letter]) -> &'a [LetterCell]
    ensures label { Label (keyword_words (automaton_book automaton.old)) (word letters.now) (spelt result.now) }
    ensures book { automaton_book automaton.new ≡ automaton_book automaton.old }
    ensures took { Took automaton.new letters.now }
{
    replay::<LetterCell, LetterAutomaton<'a>>(automaton, letters);
    automaton.label()
}
