// The rows of the substitution, one for each nibble of a word.
ghost use Rattle.std.specs.Prelude.{◌≡◌, ◌%◌, ◌<◌, T, slice_index};
ghost use Rattle.magma.specs.Rows.{permutation};

// What each nibble becomes. No two become the same.
pub struct Row {
    nibbles: [u8; 16],
    ghost permutes: { T (permutation nibbles) },
}

impl Row {
    // What the low nibble of b becomes.
    #[tactic(auto, using(crate::specs::Permutation::nibble_below))]
    pub fn nibble(&self, b: u8) -> u8
        ensures value { result ≡ slice_index self.now.nibbles (b % 16) }
        ensures small { result < 16 }
    {
        self.nibbles[(b % 16) as usize]
    }
}

// Pi'_0 to Pi'_7: row i is for nibble i, 0 the lowest.
pub const ROWS: [Row; 8] = [
    Row {
        nibbles: [12, 4, 6, 2, 10, 5, 11, 9, 14, 8, 13, 7, 0, 3, 15, 1],
    },
    Row {
        nibbles: [6, 8, 2, 3, 9, 10, 5, 12, 1, 14, 4, 7, 11, 13, 0, 15],
    },
    Row {
        nibbles: [11, 3, 5, 8, 2, 15, 10, 13, 14, 1, 7, 4, 12, 9, 6, 0],
    },
    Row {
        nibbles: [12, 8, 2, 1, 13, 4, 15, 6, 7, 0, 10, 5, 3, 14, 9, 11],
    },
    Row {
        nibbles: [7, 15, 5, 10, 8, 1, 6, 13, 0, 9, 3, 14, 11, 4, 2, 12],
    },
    Row {
        nibbles: [5, 13, 15, 6, 9, 2, 12, 10, 11, 7, 8, 1, 4, 3, 14, 0],
    },
    Row {
        nibbles: [8, 14, 2, 5, 6, 9, 1, 12, 15, 4, 11, 0, 13, 10, 3, 7],
    },
    Row {
        nibbles: [1, 7, 14, 13, 0, 5, 8, 3, 4, 15, 10, 6, 9, 12, 11, 2],
    },
];
