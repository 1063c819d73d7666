// The kinds of level. An inner key begins as the key below and is replaced step by step; a key given out is made from it.
ghost use Rattle.std.specs.Prelude.{◌≡◌};
ghost use Rattle.rules.specs.Levels.{quota as quota_of, renews as renews_below, renews_own, in_range, ranged};
ghost use Rattle.rules.specs.InnerKeys.{stage as stage_of, stepped, given};

use cipher::{BlockCipher, Key, derive_from_master, derive_numbered, renew};

const HIGHEST_BRANCH: u32 = 63;

const HIGHEST_QUOTA: u32 = 4096;

// How a level makes its keys, with its numbers.
#[derive(Clone, Copy)]
pub enum Kind {
    // One key by a fixed number, as the number of an axis.
    Branch { number: u32 },
    // Keys by their numbers: the parallel construction.
    Fan { quota: u32 },
    // Keys by inner keys, each of which is made from the one before: the serial construction.
    Serial { quota: u32 },
    // The key below, and then each key renewed: ACPKM.
    Chain { quota: u32 },
    // Keys by their numbers under an inner key that is renewed after each `period` of them: ACPKM-Master.
    Master { quota: u32, period: u32 },
}

// Whether a quota or a period is in its range.
fn fits(x: u32) -> bool
    ensures { result ≡ in_range x }
{
    (1..=HIGHEST_QUOTA).contains(&x)
}

impl Kind {
    // How many keys it makes of one key below.
    pub fn quota(self) -> u32
        ensures { result ≡ quota_of self }
    {
        match self {
            Kind::Branch { .. } => 1,
            Kind::Fan { quota }
            | Kind::Serial { quota }
            | Kind::Chain { quota }
            | Kind::Master { quota, .. } => quota,
        }
    }

    // Whether its numbers are in range.
    pub fn in_range(self) -> bool
        ensures { result ≡ ranged self }
    {
        match self {
            Kind::Branch { number } => number <= HIGHEST_BRANCH,
            Kind::Fan { quota } | Kind::Serial { quota } | Kind::Chain { quota } => fits(quota),
            Kind::Master { quota, period } => fits(quota) && fits(period),
        }
    }

    // Whether it renews keys of the source below.
    pub fn renews(self) -> bool
        ensures { result ≡ renews_below self }
    {
        matches!(self, Kind::Chain { .. } | Kind::Master { .. })
    }

    // Whether it renews keys that it gives out: then these are its inner keys.
    pub fn renews_own_keys(self) -> bool
        ensures { result ≡ renews_own self }
    {
        matches!(self, Kind::Chain { .. })
    }

    // How often the inner key has been replaced when the key of a remainder is made. A period of 0 is out of range: no
    // level stands by it.
    pub fn stage(self, remainder: u32) -> u32
        ensures { result ≡ stage_of self remainder }
    {
        match self {
            Kind::Branch { .. } | Kind::Fan { .. } => 0,
            Kind::Serial { .. } | Kind::Chain { .. } => remainder,
            Kind::Master { period, .. } => remainder.checked_div(period).unwrap_or(0),
        }
    }

    // What replaces an inner key.
    pub fn step<C: BlockCipher>(self, inner: &Key<C>) -> Key<C>
        ensures { result ≡ stepped C.BlockCipher.model self inner.now }
    {
        match self {
            Kind::Branch { .. } | Kind::Fan { .. } => inner.copy(),
            Kind::Serial { .. } => derive_numbered(inner, 1),
            Kind::Chain { .. } | Kind::Master { .. } => renew(inner),
        }
    }

    // The key of a remainder, from its inner key.
    pub fn key<C: BlockCipher>(self, inner: &Key<C>, remainder: u32) -> Key<C>
        ensures { result ≡ given C.BlockCipher.model self inner.now remainder }
    {
        match self {
            Kind::Branch { number } => derive_numbered(inner, number),
            Kind::Fan { .. } => derive_numbered(inner, remainder),
            Kind::Serial { .. } => derive_numbered(inner, 0),
            Kind::Chain { .. } => inner.copy(),
            Kind::Master { .. } => derive_from_master(inner, remainder),
        }
    }
}
