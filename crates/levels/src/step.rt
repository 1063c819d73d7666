// What each level keeps in numbers.
ghost use Rattle.std.specs.Prelude.{◌≡◌, ℕ, ◌%◌, ◌<◌, ◌≤◌, is_none, Some};
ghost use Rattle.levels.specs.Making.{barred, refused_by, Planned};
ghost use Rattle.levels.specs.Onward.{onward as onward_from};

use cipher::BlockCipher;
use keys::{KeySource, MakingFault, Refusal};
use rules::Rule;

pub(crate) const MOST_LEVELS: u32 = 256;

const MOST_KEYS: u64 = 16777216;

// How many keys a level has, its quota, and the remainder of the key that it stands at.
#[derive(Clone, Copy)]
pub(crate) struct Step {
    pub count: u32,
    pub quota: u32,
    pub remainder: u32,
    ghost fits: { count ≤ 16777216 },
    ghost some: { 1 ≤ quota },
    ghost few: { quota ≤ 4096 },
    ghost below: { remainder < quota },
}

impl Step {
    ghost use Rattle.levels.specs.Numbers.{Numbers};

    // The numbers of a level by that rule on a source, or the first refusal that applies.
    fn plan<C: BlockCipher, S: KeySource<C>, R: Rule<C>>(
        below: &S,
        rule: &R,
    ) -> Result<Step, MakingFault>
        ensures cases { Planned (barred (R.Rule.kind rule.now) (is_none (S.KeySource.stands below.now)) (S.KeySource.stack below.now)) result (Numbers (R.Rule.kind rule.now) (S.KeySource.stack below.now)) }
    {
        if !rule.in_range() {
            return Err(MakingFault::OutOfRange);
        }
        if below.position().is_some() {
            return Err(MakingFault::NotFresh);
        }
        if rule.renews() && below.renews_own_keys() {
            return Err(MakingFault::KeysRenewed);
        }
        let (count, quota) = (below.count(), rule.quota());
        if below.levels() >= MOST_LEVELS || count as u64 * quota as u64 > MOST_KEYS {
            return Err(MakingFault::TooLarge);
        }
        Ok(Step {
            count: count * quota,
            quota,
            remainder: 0,
        })
    }

    // The numbers of a level by that rule on a source, or why it is not made: a refusal of the source is passed on.
    pub(crate) fn settle<C: BlockCipher, S: KeySource<C>, R: Rule<C>>(
        below: &S,
        rule: &R,
    ) -> Result<Step, Refusal>
        ensures cases { Planned (refused_by (R.Rule.kind rule.now) (is_none (S.KeySource.stands below.now)) (S.KeySource.stack below.now)) result (Numbers (R.Rule.kind rule.now) (S.KeySource.stack below.now)) }
    {
        below.note()?;
        let level = below.levels().min(MOST_LEVELS - 1);
        Step::plan::<C, S, R>(below, rule).map_err(|fault| Refusal { level, fault })
    }

    // The remainder to go on from, where the level stands under the same key below and before the number.
    pub(crate) fn onward(self, position: Option<u32>, number: u32) -> Option<u32>
        ensures value { result ≡ onward_from self.quota position self.remainder number }
        ensures before { (k : ℕ) → result ≡ Some k → k < number % self.quota }
    {
        let at = position?;
        let same = at / self.quota == number / self.quota;
        (same && self.remainder < number % self.quota).then_some(self.remainder)
    }
}
