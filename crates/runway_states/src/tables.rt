// The figures that a runway state may have.
ghost use Rattle.std.specs.Prelude.{◌≡◌};
ghost use Rattle.record.specs.Missing.{present, optional};
ghost use Rattle.runway_states.specs.Tables.{has, table_of, holds};

use figures::kinds::Field;

// Its runways, and the tables 0919, 0519 and 0366.
#[derive(Clone, Copy)]
pub enum Table {
    Runways,
    Deposits,
    Extents,
    Brakings,
}

impl Table {
    pub fn has(self, n: u32) -> bool
        ensures { result ≡ has (table_of self) n }
    {
        match self {
            Table::Runways => {
                ((1 <= n) & (n <= 36)) | (((51 <= n) & (n <= 86)) | ((n == 88) | (n == 99)))
            }
            Table::Deposits => n <= 9,
            Table::Extents => (n == 1) | ((n == 2) | ((n == 5) | (n == 9))),
            Table::Brakings => (n <= 95) | (n == 99),
        }
    }

    // A number that has to be there.
    pub fn has_present(self, n: Option<u32>) -> bool
        ensures { result ≡ present (has (table_of self)) n }
    {
        match n {
            None => false,
            Some(n) => self.has(n),
        }
    }

    // One that may be missing.
    pub fn has_optional(self, n: Option<u32>) -> bool
        ensures { result ≡ optional (has (table_of self)) n }
    {
        match n {
            None => true,
            Some(n) => self.has(n),
        }
    }

    // The figures of a group, or slashes where they may be missing.
    pub fn holds(self, f: Field, slashes: bool) -> bool
        ensures { result ≡ holds self slashes f }
    {
        match f {
            Field::Number(n) => self.has(n),
            Field::Missing => slashes,
            Field::Mixed | Field::Other => false,
        }
    }
}
