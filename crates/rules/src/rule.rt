// What a level asks of the rule by which it makes its keys.
ghost use Rattle.std.specs.Prelude.{◌≡◌, true};
ghost use Rattle.rules.specs.declared.kind.Kind.{Kind};
ghost use Rattle.rules.specs.Levels.{quota as quota_of, renews as renews_below, renews_own, ranged};
ghost use Rattle.rules.specs.InnerKeys.{stage as stage_of, stepped, given};

use crate::Kind;
use cipher::{BlockCipher, Key};

// How a level makes its keys. An inner key begins as the key below and is replaced step by step; a key given out is made
// from it. A kind is its own rule; a type of another make may be the rule of a kind too.
pub trait Rule<C: BlockCipher>: Sized + Drop {
    // The kind of level, with its numbers.
    ghost kind: { Self → Kind };

    // How many keys it makes of one key below.
    fn quota(&self) -> u32
        ensures { result ≡ quota_of (kind self.now) };

    // Whether its numbers are in range.
    fn in_range(&self) -> bool
        ensures { result ≡ ranged (kind self.now) };

    // Whether it renews keys of the source below.
    fn renews(&self) -> bool
        ensures { result ≡ renews_below (kind self.now) };

    // Whether it renews keys that it gives out: then these are its inner keys.
    fn renews_own_keys(&self) -> bool
        ensures { result ≡ renews_own (kind self.now) };

    // How often the inner key has been replaced when the key of a remainder is made. Nothing is asked of numbers out of range:
    // no level stands by them.
    fn stage(&self, remainder: u32) -> u32
        ensures { ranged (kind self.now) ≡ true → result ≡ stage_of (kind self.now) remainder };

    // What replaces an inner key.
    fn step(&self, inner: &Key<C>) -> Key<C>
        ensures { result ≡ stepped C.BlockCipher.model (kind self.now) inner.now };

    // The key of a remainder, from its inner key.
    fn key(&self, inner: &Key<C>, remainder: u32) -> Key<C>
        ensures { result ≡ given C.BlockCipher.model (kind self.now) inner.now remainder };
}

impl<C: BlockCipher> Rule<C> for Kind {
    ghost kind = { λ k. k };

    fn quota(&self) -> u32 {
        Kind::quota(*self)
    }

    fn in_range(&self) -> bool {
        Kind::in_range(*self)
    }

    fn renews(&self) -> bool {
        Kind::renews(*self)
    }

    fn renews_own_keys(&self) -> bool {
        Kind::renews_own_keys(*self)
    }

    fn stage(&self, remainder: u32) -> u32 {
        Kind::stage(*self, remainder)
    }

    fn step(&self, inner: &Key<C>) -> Key<C> {
        Kind::step(*self, inner)
    }

    fn key(&self, inner: &Key<C>, remainder: u32) -> Key<C> {
        Kind::key(*self, inner, remainder)
    }
}
