// The making of a level's keys.
ghost use Rattle.std.specs.Prelude.{◌≡◌, ℕ, suc, ◌+◌, ◌-◌, ◌<◌, ◌≤◌, Some, None, Option, MatchOption};
ghost use Rattle.rules.specs.Levels.{renews_own};
ghost use Rattle.rules.specs.InnerKeys.{given};
ghost use Rattle.keys.specs.Moving.{capped};
ghost use Rattle.levels.specs.Advanced.{Advanced};
ghost use Rattle.levels.specs.Onward.{first_of};

use cipher::{BlockCipher, Key};
use rules::Rule;

// An inner key, which has been replaced `stage` times since the key below.
#[derive(Drop)]
pub(crate) struct Inner<C: BlockCipher> {
    pub key: Key<C>,
    pub stage: u32,
}

// Makes a level's keys by its rule, and counts them. The rule is handed in: so no contract here says that it stays.
#[derive(Drop)]
pub(crate) struct Maker<C: BlockCipher> {
    pub inner: Inner<C>,
    pub current: Key<C>,
    pub made: u32,
}

impl<C: BlockCipher> Maker<C> {
    pub(crate) fn new() -> Maker<C>
        ensures { result.made ≡ 0 }
    {
        Maker {
            inner: Inner {
                key: Key::new(&[0; 32]),
                stage: 0,
            },
            current: Key::new(&[0; 32]),
            made: 0,
        }
    }

    // Replaces the inner key until it is the one for a remainder.
    fn advance<R: Rule<C>>(&mut self, rule: &R, remainder: u32)
        ensures made { self.new.made ≡ self.old.made }
        ensures inner { Advanced C.BlockCipher.model (R.Rule.kind rule.now) remainder remainder self.old.inner self.new.inner }
    {
        for stage in self.inner.stage..rule.stage(remainder) {
            self.inner = Inner {
                key: rule.step(&self.inner.key),
                stage: stage + 1,
            };
        }
    }

    // Makes one key given out, and counts it: nothing else does either.
    fn make<R: Rule<C>>(&mut self, rule: &R, remainder: u32)
        ensures made { self.new.made ≡ capped (self.old.made + 1) }
        ensures inner { Advanced C.BlockCipher.model (R.Rule.kind rule.now) remainder remainder self.old.inner self.new.inner }
        ensures key { self.new.current ≡ given C.BlockCipher.model (R.Rule.kind rule.now) self.new.inner.key remainder }
    {
        self.advance(rule, remainder);
        self.current = rule.key(&self.inner.key, remainder);
        self.made = self.made.saturating_add(1);
    }

    // Makes the keys of the remainders from the first to the last.
    pub(crate) fn make_through<R: Rule<C>>(&mut self, rule: &R, first: u32, last: u32)
        requires { first ≤ last }
        ensures made { self.new.made ≡ capped (self.old.made + (suc last - first)) }
        ensures inner { Advanced C.BlockCipher.model (R.Rule.kind rule.now) first last self.old.inner self.new.inner }
        ensures key { self.new.current ≡ given C.BlockCipher.model (R.Rule.kind rule.now) self.new.inner.key last }
    {
        for remainder in first..=last {
            self.make(rule, remainder);
        }
    }

    // Goes on from the inner key that it has, or begins with the key below; tells the first remainder whose
    // key is to be made on the way to the last. Only inner keys that are given out count.
    pub(crate) fn prepare<R: Rule<C>>(
        &mut self,
        rule: &R,
        parent: Key<C>,
        onward: Option<u32>,
        last: u32,
    ) -> u32
        requires { (r : ℕ) → onward ≡ Some r → r < last }
        ensures made { self.new.made ≡ self.old.made }
        ensures first { result ≡ first_of (renews_own (R.Rule.kind rule.now)) onward last }
        ensures inner { MatchOption onward
            ((self.new.inner.key ≡ parent) × (self.new.inner.stage ≡ 0))
            (λ _. self.new.inner ≡ self.old.inner) }
    {
        if onward.is_none() {
            self.inner = Inner {
                key: parent,
                stage: 0,
            };
        }
        if rule.renews_own_keys() {
            onward.map_or(0, |from| from + 1)
        } else {
            last
        }
    }
}
