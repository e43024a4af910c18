// The table of all 256 rows: a row's character, or 133 where it is odd, or 134 where it is even and not one of the 50 characters.
ghost use Rattle.std.specs.Prelude.{◌≡◌};
ghost use Rattle.rows.specs.Row.{entry, Tabulated};

// What the table holds for a row that is odd, and for one that is even and not one of the 50 characters.
// Stays so: numbers, and not an enum, since `entry_of` and the definitions `entry` and `Tabulated` are about numbers.
pub(crate) const ODD: u8 = 133;

pub(crate) const FOREIGN: u8 = 134;

// The table, laid out once for a whole tape and not for each row.
#[derive(Drop)]
pub(crate) struct Table {
    entries: [u8; 256],
    ghost tabulated: { Tabulated entries },
}

impl Table {
    pub(crate) fn lay_out() -> Table {
        Table { entries: ROWS }
    }

    // What the table holds of a row.
    pub(crate) fn entry(&self, row: u8) -> u8
        ensures { result ≡ entry row }
    {
        self.entries[row as usize]
    }
}

const ROWS: [u8; 256] = [
    0, 133, 133, 134, 133, 134, 134, 133, 133, 9, 10, 133, 134, 133, 133, 134, 133, 134, 134, 133,
    134, 133, 133, 134, 134, 133, 133, 134, 133, 134, 134, 133, 133, 134, 134, 133, 134, 133, 133,
    134, 40, 133, 133, 43, 133, 45, 134, 133, 48, 133, 133, 51, 133, 53, 54, 133, 133, 57, 58, 133,
    134, 133, 133, 134, 133, 65, 66, 133, 68, 133, 133, 71, 72, 133, 133, 75, 133, 77, 78, 133, 80,
    133, 133, 83, 133, 85, 86, 133, 133, 89, 90, 133, 134, 133, 133, 134, 134, 133, 133, 134, 133,
    134, 134, 133, 133, 134, 134, 133, 134, 133, 133, 134, 133, 134, 134, 133, 134, 133, 133, 134,
    134, 133, 133, 134, 133, 134, 134, 133, 133, 134, 134, 133, 134, 133, 133, 134, 8, 133, 133,
    134, 133, 13, 134, 133, 134, 133, 133, 134, 133, 134, 134, 133, 133, 134, 134, 133, 134, 133,
    133, 134, 32, 133, 133, 134, 133, 37, 134, 133, 133, 41, 134, 133, 134, 133, 133, 47, 133, 49,
    50, 133, 52, 133, 133, 55, 56, 133, 133, 134, 133, 134, 134, 133, 134, 133, 133, 67, 133, 69,
    70, 133, 133, 73, 74, 133, 76, 133, 133, 79, 133, 81, 82, 133, 84, 133, 133, 87, 88, 133, 133,
    134, 133, 134, 134, 133, 133, 134, 134, 133, 134, 133, 133, 134, 134, 133, 133, 134, 133, 134,
    134, 133, 134, 133, 133, 134, 133, 134, 134, 133, 133, 134, 134, 133, 134, 133, 133, 127,
];
