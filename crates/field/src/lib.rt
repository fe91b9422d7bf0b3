// Symbols: what a field is, and what it is to number its symbols.
#![tactic(auto)]

ghost use Rattle.std.specs.Prelude.{◌≡◌, ℕ, Option};
ghost use Rattle.field.specs.Laws.{Operations, FieldLaws, Numbering};

mod decimal;

pub use decimal::Decimal;

// A field of symbols.
pub trait Field: Copy {
    ghost ops: { Operations Self };

    fn zero() -> Self
        ensures { result ≡ ops.zero };

    fn one() -> Self
        ensures { result ≡ ops.one };

    fn sum(self, other: Self) -> Self
        ensures { result ≡ ops.sum self other };

    fn difference(self, other: Self) -> Self
        ensures { result ≡ ops.difference self other };

    fn product(self, other: Self) -> Self
        ensures { result ≡ ops.product self other };

    fn inverse(self) -> Self
        ensures { result ≡ ops.inverse self };

    ghost laws: { FieldLaws ops };
}

// A field of finitely many symbols, which are numbered from 0.
pub trait NumberedField: Field {
    ghost size: { ℕ };

    ghost symbol: { ℕ → Option Self };

    ghost number: { Self → ℕ };

    // How many symbols there are.
    fn size() -> usize
        ensures { result ≡ size };

    // The symbol with a number, where there is one.
    fn symbol(n: usize) -> Option<Self>
        ensures { result ≡ symbol n };

    // The number of a symbol.
    fn number(self) -> usize
        ensures { result ≡ number self };

    ghost numbering: { Numbering size symbol number };
}
