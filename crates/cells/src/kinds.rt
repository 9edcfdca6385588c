// A kind of cell: the one published meaning by which books, finders and benches are built.
ghost use Rattle.std.specs.Prelude.{◌≡◌, Bool, false, Some, None, Option};

/// A cell is one place of a keyword. It admits some symbols and no others.
pub trait Cell: Copy {
    // what arrives
    type Sample: Copy;

    // a sample that has been read
    type Symbol: Copy;

    // the samples that a cell admits: what the kind means
    ghost hears: { Self → Self.Sample → Bool };

    // the symbol that a sample is read as, if it is one
    ghost reads: { Self.Sample → Option Self.Symbol };

    // the symbols that a cell admits
    ghost admits: { Self → Self.Symbol → Bool };

    fn read(sample: Self::Sample) -> Option<Self::Symbol>
        ensures { result ≡ reads sample };

    fn admits(&self, symbol: Self::Symbol) -> bool
        ensures { result ≡ admits self.now symbol };

    // A cell admits a symbol exactly when it admits the sample that was read.
    ghost heard: { (c : Self) (s : Self.Sample) (y : Self.Symbol) → reads s ≡ Some y → admits c y ≡ hears c s };

    // No cell admits a sample that is no symbol.
    ghost deaf: { (c : Self) (s : Self.Sample) → reads s ≡ None → hears c s ≡ false };
}
