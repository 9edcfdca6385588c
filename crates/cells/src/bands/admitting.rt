// Band cells are a kind of cell.
ghost use Rattle.std.specs.Prelude.{◌≡◌};
ghost use Rattle.std.proofs.Common.{sym, ap, ⊎_elim};
ghost use Rattle.cells.specs.Bands.{reading_of, band_admits, band_hears, inside};
ghost use Rattle.cells.specs.Scale.{on_scale};
ghost use Rattle.cells.specs.Whens.{when_made, when_none};
ghost use Rattle.std.proofs.lemmas.Bool.{and_parts, and_from, both_ways, cases_Bool};
ghost use Rattle.cells.specs.Scaled.{scaled};

use crate::bands::{BandCell, Gauges, Reading};
use crate::kinds::Cell;

impl Cell for BandCell {
    type Sample = Gauges;

    type Symbol = Reading;

    ghost hears = { band_hears };

    ghost reads = { reading_of };

    ghost admits = { band_admits };

    ghost heard = { λ cell sample reading e.
        let m = (when_made (on_scale sample.rpm sample.oil) _ reading e).1 in
        ap (band_admits cell) (sym m) };

    ghost deaf = { λ cell sample e.
        let off = when_none (on_scale sample.rpm sample.oil) _ e in
        ⊎_elim
        (λ h. let both = and_parts (inside cell.rpm sample.rpm) _ h in
        absurd (both_ways _ off (and_from _ _ (scaled cell.rpm sample.rpm both.0) (scaled cell.oil sample.oil both.1))))
        (λ no_hearing. no_hearing)
        (cases_Bool (band_hears cell sample)) };

    fn read(sample: Gauges) -> Option<Reading> {
        Reading::new(sample)
    }

    fn admits(&self, symbol: Reading) -> bool {
        self.rpm.hold(symbol.rpm()) && self.oil.hold(symbol.oil())
    }
}
