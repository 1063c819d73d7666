// Keys that a bottom source holds.
ghost use Rattle.std.specs.Prelude.{◌≡◌, ℕ, ◌<◌, ◌≤◌, List, length, MatchOption};

use cipher::BlockCipher;

// Keys for a cipher, numbered from 0.
pub trait Keys<C: BlockCipher>: Sized + Drop {
    // How many there are.
    ghost count: { Self → ℕ };

    // The key of each number.
    ghost key: { Self → ℕ → List ℕ };

    // How many there are.
    fn count(&self) -> u32
        ensures value { result ≡ count self.now }
        ensures few { result ≤ 256 };

    // The key of a number, where there is one.
    fn key(&self, number: u32) -> Option<&[u8]>
        ensures { MatchOption result (count self.now ≤ number)
            (λ k. (number < count self.now) × (k.now ≡ key self.now number) × (length k.now ≡ C.BlockCipher.model.key)) };

    ghost few: { (s : Self) → count s ≤ 256 };
}
