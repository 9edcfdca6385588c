// Letter cells are a kind of cell.
ghost use Rattle.std.specs.Prelude.{◌≡◌, nat_eq};
ghost use Rattle.std.proofs.Common.{sym, ap, ◌∙◌};
ghost use Rattle.cells.specs.Letters.{letter_of, letter_admits, letter_hears};
ghost use Rattle.cells.specs.Alphabet.{is_letter};
ghost use Rattle.cells.specs.Whens.{when_made, when_none};
ghost use Rattle.std.proofs.lemmas.Bool.{ne_eqb, both_ways};

use crate::kinds::Cell;
use crate::letters::{Letter, LetterCell};

impl Cell for LetterCell {
    type Sample = u8;

    type Symbol = Letter;

    ghost hears = { letter_hears };

    ghost reads = { letter_of };

    ghost admits = { letter_admits };

    ghost heard = { λ cell byte letter e. ap (λ l. nat_eq cell.letter.byte l.byte) (sym (when_made (is_letter byte) _ letter e).1) };

    ghost deaf = { λ cell byte e. ne_eqb _ _ (λ same. both_ways (is_letter byte) (when_none (is_letter byte) _ e) (ap is_letter (sym same) ∙ cell.letter.ok)) };

    fn read(sample: u8) -> Option<Letter> {
        Letter::new(sample)
    }

    fn admits(&self, symbol: Letter) -> bool {
        self.letter == symbol
    }
}
