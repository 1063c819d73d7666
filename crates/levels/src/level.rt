// A level on a source of keys.
ghost use Rattle.std.specs.Prelude.{◌≡◌, ◌<◌, is_none, None, Ok, MatchResult};
ghost use Rattle.keys.specs.Stack.{levels as levels_of};
ghost use Rattle.keys.specs.Moving.{move_refusal};
ghost use Rattle.levels.specs.Making.{stood, AtLimit};
ghost use Rattle.levels.specs.LevelState.{stack_of, ledgers_of, Sits};
ghost use Rattle.levels.specs.LevelFacts.{facts_of};
ghost use Rattle.levels.specs.OneProof.{Sits-prop};

use crate::maker::Maker;
use crate::step::{MOST_LEVELS, Step};
use cipher::{BlockCipher, Key, KeyBuffer};
use keys::{KeySource, MoveFault, Refusal};
use rules::{Kind, Rule};

// A level, which makes keys of each key of the source below by a rule: a `Kind`, where no other type is named.
#[derive(Drop)]
pub struct Level<C: BlockCipher, S: KeySource<C>, R: Rule<C> = Kind> {
    below: S,
    rule: R,
    maker: Maker<C>,
    // Its numbers, or why it was not made.
    step: Result<Step, Refusal>,
    position: Option<u32>,
    ghost sits: { Sits C.BlockCipher.model (S.KeySource.stack below) (S.KeySource.stands below) (S.KeySource.ledgers below) (R.Rule.kind rule) step position maker } by { Sits-prop _ _ _ _ _ _ _ _ },
}

impl<C: BlockCipher, S: KeySource<C>, R: Rule<C>> KeySource<C> for Level<C, S, R> {
    ghost stack = { λ s. stack_of s.step (R.Rule.kind s.rule) (S.KeySource.stack s.below) };

    ghost stands = { λ s. s.position };

    ghost ledgers = { λ s. ledgers_of s.step (levels_of (S.KeySource.stack s.below)) s.maker.made (S.KeySource.ledgers s.below) };

    #[tactic(auto, using(crate::specs::LevelFacts::facts_of))]
    fn count(&self) -> u32 {
        match &self.step {
            Ok(step) => step.count,
            Err(_) => 0,
        }
    }

    fn position(&self) -> Option<u32> {
        self.position
    }

    fn levels(&self) -> u32 {
        (self.below.levels() + 1).min(MOST_LEVELS)
    }

    fn quota(&self, level: u32) -> Option<u32> {
        let below = self.below.levels();
        if level == below && below < MOST_LEVELS {
            return Some(match &self.step {
                Ok(step) => step.quota,
                Err(_) => 1,
            });
        }
        self.below.quota(level)
    }

    fn ledger(&self, level: u32) -> Option<u32> {
        if self.step.is_err() {
            return (level < self.levels()).then_some(0);
        }
        if level == self.below.levels() {
            return Some(self.maker.made);
        }
        self.below.ledger(level)
    }

    fn renews_own_keys(&self) -> bool {
        self.step.is_ok() && self.rule.renews_own_keys()
    }

    fn note(&self) -> Result<u32, Refusal> {
        let own = self.below.levels();
        self.step.map(|_| own)
    }

    fn move_to(&mut self, number: u32, key: &mut KeyBuffer) -> Result<(), MoveFault> {
        let step = self.step_to(number)?;
        if self.position == Some(number) {
            self.maker.current.write(key);
            return Ok(());
        }
        let onward = step.onward(self.position, number);
        let remainder = number % step.quota;
        let mut parent = [0; 32];
        self.below.move_to(number / step.quota, &mut parent)?;
        let first = self
            .maker
            .prepare(&self.rule, Key::new(&parent), onward, remainder);
        self.maker.make_through(&self.rule, first, remainder);
        // Field by field: `..step` is not taken of a struct with an invariant.
        self.step = Ok(Step {
            count: step.count,
            quota: step.quota,
            remainder,
        });
        self.position = Some(number);
        self.maker.current.write(key);
        Ok(())
    }

    ghost facts = { λ s. facts_of _ _ _ _ _ _ _ _ s.sits };
}

impl<C: BlockCipher, S: KeySource<C>, R: Rule<C>> Level<C, S, R> {
    // Its numbers, where it has a key of that number.
    fn step_to(&self, number: u32) -> Result<Step, MoveFault>
        ensures { MatchResult result
            (λ t. (self.now.step ≡ Ok t) × (number < t.count))
            (λ f. (move_refusal f).given (⟦<Level<C, S, R> as KeySource<C>>⟧.stack self.now) number) }
    {
        self.step
            .ok()
            .filter(|step| number < step.count)
            .ok_or(MoveFault::PastCount)
    }

    // Makes a level on a source. What is refused is a source all the same, without keys, and its note says why.
    #[tactic(auto, using(crate::proofs::Made::made_sits, crate::proofs::Made::made_stack, crate::proofs::Made::at_limit))]
    pub fn stand(below: S, rule: R) -> Level<C, S, R>
        ensures stack { ⟦<Level<C, S, R> as KeySource<C>>⟧.stack result ≡ stood (R.Rule.kind rule) (is_none (S.KeySource.stands below)) (S.KeySource.stack below) }
        ensures stands { ⟦<Level<C, S, R> as KeySource<C>>⟧.stands result ≡ None }
        ensures limit { levels_of (S.KeySource.stack below) ≡ 256 → AtLimit (S.KeySource.stack below) (⟦<Level<C, S, R> as KeySource<C>>⟧.stack result) }
    {
        let step = Step::settle::<C, S, R>(&below, &rule);
        Level {
            below,
            rule,
            maker: Maker::new(),
            step,
            position: None,
        }
    }
}
