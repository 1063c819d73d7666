// Levels are made on one another from a list of their kinds, and what stands on top is looked at by a visitor: the list
// may be of any length, and no function names the nest of types.
ghost use Rattle.std.specs.Prelude.{None};
ghost use Rattle.nests.specs.Unready.{unready, unready_facts};
ghost use Rattle.rules.specs.declared.kind.Kind.TheVariants.{Master};

use aes::Aes256;
use cipher::{BlockCipher, Key, KeyBuffer, derive_from_master, renew};
use keys::{KeySource, MakingFault, MoveFault, Refusal, Ring, Root, walk};
use levels::Level;
use magma::Magma;
use rules::{Kind, Rule};
use std::array;
use std::num::NonZeroU32;

// Looks at a source.
trait Visitor<C: BlockCipher>: Sized + Drop {
    type Seen;

    fn visit<S: KeySource<C>>(self, source: S) -> Self::Seen;
}

// Levels to be made on one another: none, or the kind of the lowest and the levels above it. Its like in `stacks` gives a key
// and has a contract; this one lets a test look.
trait Levels<C: BlockCipher>: Sized + Drop {
    fn on<S: KeySource<C>, V: Visitor<C>>(self, below: S, visitor: V) -> V::Seen;
}

impl<C: BlockCipher> Levels<C> for () {
    fn on<S: KeySource<C>, V: Visitor<C>>(self, below: S, visitor: V) -> V::Seen {
        visitor.visit(below)
    }
}

impl<C: BlockCipher, L: Levels<C>> Levels<C> for (Kind, L) {
    fn on<S: KeySource<C>, V: Visitor<C>>(self, below: S, visitor: V) -> V::Seen {
        let (lowest, above) = self;
        above.on(Level::stand(below, lowest), visitor)
    }
}

// The key of a number, where there is one.
fn key_at<C: BlockCipher, S: KeySource<C>>(source: &mut S, number: u32) -> Option<KeyBuffer> {
    let mut key = [0; 32];
    source.move_to(number, &mut key).ok()?;
    Some(key)
}

// The level and the number of a note, 0 for a source that was made, as the tests expect them.
fn numbered(note: Result<u32, Refusal>) -> (u32, u32) {
    match note {
        Ok(level) => (level, 0),
        Err(refusal) => (refusal.level, refusal.fault.number()),
    }
}

// What a test looks at in a source that is made.
#[derive(Clone, Copy)]
struct Note;

impl<C: BlockCipher> Visitor<C> for Note {
    // The level and the number of the note, and how many keys there are.
    type Seen = ((u32, u32), u32);

    fn visit<S: KeySource<C>>(self, source: S) -> ((u32, u32), u32) {
        (numbered(source.note()), source.count())
    }
}

#[derive(Clone, Copy)]
enum Way {
    Walk,
    Jump,
}

// A way to the last key.
#[derive(Clone, Copy)]
struct ToLast {
    way: Way,
    last: u32,
}

// What a test looks at after it: the key, and the key of a second move to it; ledgers, which that does not change; the key
// past the last; then position, note and count, which a refused move does not change.
#[derive(Clone, Copy, PartialEq, Eq)]
struct AtLast {
    key: Option<KeyBuffer>,
    again: Option<KeyBuffer>,
    ledgers: [Option<u32>; 6],
    past: Option<KeyBuffer>,
    position: Option<u32>,
    note: (u32, u32),
    count: u32,
}

impl<C: BlockCipher> Visitor<C> for ToLast {
    type Seen = AtLast;

    fn visit<S: KeySource<C>>(self, mut source: S) -> AtLast {
        let mut key = [0; 32];
        let moved = match self.way {
            Way::Walk => walk(&mut source, self.last, &mut key),
            Way::Jump => source.move_to(self.last, &mut key),
        };
        AtLast {
            key: moved.ok().map(|_| key),
            again: key_at(&mut source, self.last),
            ledgers: array::from_fn(|j| source.ledger(j as u32)),
            past: key_at(&mut source, self.last.saturating_add(1)),
            position: source.position(),
            note: numbered(source.note()),
            count: source.count(),
        }
    }
}

// Branch 5, a fan of 2, a serial level of 3, a master of 4 with period 2 and a chain of 2.
fn last_on<C: BlockCipher, S: KeySource<C>>(below: S, way: Way, last: u32) -> AtLast {
    let master = Kind::Master {
        quota: 4,
        period: 2,
    };
    let upper = (
        Kind::Serial { quota: 3 },
        (master, (Kind::Chain { quota: 2 }, ())),
    );
    let levels = (Kind::Branch { number: 5 }, (Kind::Fan { quota: 2 }, upper));
    levels.on(below, ToLast { way, last })
}

// A walk and a jump to the last key give the same key. The walk makes each key of each level once; the jump
// makes one key of each level, and two of the chain on top.
fn agree<C: BlockCipher, S: KeySource<C>>(a: S, b: S, last: u32, walked: [u32; 6]) -> bool {
    let seen = last_on(a, Way::Walk, last);
    let expected = AtLast {
        key: seen.key,
        again: seen.key,
        ledgers: walked.map(Some),
        past: None,
        position: Some(last),
        note: (5, 0),
        count: last.saturating_add(1),
    };
    let jumped = AtLast {
        ledgers: [1, 1, 1, 1, 1, 2].map(Some),
        ..expected
    };
    seen.key.is_some() && seen == expected && last_on(b, Way::Jump, last) == jumped
}

fn rooted<C: BlockCipher>() -> Root<C> {
    let mut key = [7u8; 32];
    Root::from_key(&mut key)
}

fn agree_on_roots<C: BlockCipher>() -> bool {
    let (a, b): (Root<C>, Root<C>) = (rooted(), rooted());
    agree(a, b, 47, [1, 1, 2, 6, 24, 48])
}

fn agree_on_rings<C: BlockCipher>() -> bool {
    let keys = [7u8; 64];
    let (a, b): (Ring<C>, Ring<C>) = (Ring::from_keys(&keys), Ring::from_keys(&keys));
    agree(a, b, 95, [2, 2, 4, 12, 48, 96])
}

#[test]
fn five_levels_walked_and_jumped(rt: HostRuntime) {
    assert!(rt; agree_on_roots::<Aes256>() && agree_on_roots::<Magma>());
    assert!(rt; agree_on_rings::<Aes256>() && agree_on_rings::<Magma>());
}

// Whether levels on a root have that note: its number is 0 if and only if there are keys.
fn has_note<C: BlockCipher, L: Levels<C>>(levels: L, level: u32, number: u32) -> bool {
    let root: Root<C> = rooted();
    let (note, count) = levels.on(root, Note);
    note == (level, number) && (number == 0) == (count > 0)
}

#[test]
fn ranges(rt: HostRuntime) {
    assert!(rt; has_note::<Aes256, _>((Kind::Fan { quota: 4096 }, ()), 1, 0));
    assert!(rt; has_note::<Aes256, _>((Kind::Fan { quota: 0 }, ()), 1, 2));
    assert!(rt; has_note::<Aes256, _>((Kind::Fan { quota: 4097 }, ()), 1, 2));
    assert!(rt; has_note::<Magma, _>((Kind::Branch { number: 63 }, ()), 1, 0));
    assert!(rt; has_note::<Magma, _>((Kind::Branch { number: 64 }, ()), 1, 2));
}

#[test]
fn a_chain_stands_on_no_chain(rt: HostRuntime) {
    let chain = Kind::Chain { quota: 4 };
    let master = Kind::Master {
        quota: 4,
        period: 2,
    };
    assert!(rt; has_note::<Magma, _>((chain, (chain, ())), 2, 4));
    assert!(rt; has_note::<Magma, _>((chain, (master, ())), 2, 4));
    assert!(rt; has_note::<Magma, _>((chain, (Kind::Fan { quota: 4 }, (chain, ()))), 3, 0));
}

#[test]
fn sixteen_million_keys_and_no_more(rt: HostRuntime) {
    let full = Kind::Fan { quota: 4096 };
    assert!(rt; has_note::<Aes256, _>((full, (full, ())), 2, 0));
    assert!(rt; has_note::<Aes256, _>((full, (full, (Kind::Fan { quota: 2 }, ()))), 3, 5));
}

// A level on a source that has moved has no keys, and tells every ledger as 0.
#[test]
fn nothing_stands_on_a_source_that_has_moved(rt: HostRuntime) {
    let mut below: Root<Magma> = rooted();
    assert!(rt; key_at(&mut below, 0).is_some());
    let top = Level::stand(below, Kind::Serial { quota: 4 });
    assert!(rt; top.count() == 0 && numbered(top.note()) == (1, 3) && top.ledger(0) == Some(0));
}

#[test]
fn a_root_leaves_zeros(rt: HostRuntime) {
    let mut key = [7u8; 33];
    let short: Root<Aes256> = Root::from_key(&mut key[0..31]);
    assert!(rt; numbered(short.note()).1 == 1 && key[0] == 0 && key[30] == 0 && key[31] == 7);
    let good: Root<Aes256> = Root::from_key(&mut key[1..33]);
    assert!(rt; numbered(good.note()).1 == 0 && key[32] == 0);
}

#[test]
fn a_ring_holds_whole_keys(rt: HostRuntime) {
    let keys = [7u8; 96];
    let none: Ring<Magma> = Ring::from_keys(&keys[0..0]);
    let odd: Ring<Magma> = Ring::from_keys(&keys[0..33]);
    let three: Ring<Magma> = Ring::from_keys(&keys);
    assert!(rt; numbered(none.note()).1 == 1 && numbered(odd.note()).1 == 1 && three.count() == 3);
}

// A bottom of another make, which has no keys, and why.
#[derive(Clone, Copy)]
struct Unready(MakingFault);

impl<C: BlockCipher> KeySource<C> for Unready {
    ghost stack = { λ s. unready s.0 };

    ghost stands = { λ _. None };

    ghost ledgers = { λ _ _. 0 };

    fn count(&self) -> u32 {
        0
    }

    fn position(&self) -> Option<u32> {
        None
    }

    fn levels(&self) -> u32 {
        1
    }

    fn quota(&self, level: u32) -> Option<u32> {
        (level == 0).then_some(1)
    }

    fn ledger(&self, level: u32) -> Option<u32> {
        (level == 0).then_some(0)
    }

    fn renews_own_keys(&self) -> bool {
        false
    }

    fn note(&self) -> Result<u32, Refusal> {
        Err(Refusal {
            level: 0,
            fault: self.0,
        })
    }

    fn move_to(&mut self, _number: u32, _key: &mut KeyBuffer) -> Result<(), MoveFault> {
        Err(MoveFault::PastCount)
    }

    ghost facts = { λ s. unready_facts s.0 };
}

// Its note may have a number of its own. The level on it, whose own numbers are in order, and the one on that, whose own are not,
// pass it on whole.
#[test]
fn a_note_of_another_make_is_passed_on(rt: HostRuntime) {
    let note = NonZeroU32::new(9).map(|number| {
        let unready = Unready(MakingFault::Other(number));
        let low: Level<Magma, Unready> = Level::stand(unready, Kind::Fan { quota: 4 });
        let top: Level<Magma, Level<Magma, Unready>> = Level::stand(low, Kind::Chain { quota: 0 });
        numbered(top.note())
    });
    assert!(rt; note == Some((0, 9)));
}

// A rule of another make: a master whose inner key goes by a period of 1 where it has none.
#[derive(Clone, Copy)]
struct Renewing {
    quota: u32,
    period: u32,
}

impl<C: BlockCipher> Rule<C> for Renewing {
    ghost kind = { λ s. Master s.quota s.period };

    fn quota(&self) -> u32 {
        self.quota
    }

    fn in_range(&self) -> bool {
        (1..=4096).contains(&self.quota) && (1..=4096).contains(&self.period)
    }

    fn renews(&self) -> bool {
        true
    }

    fn renews_own_keys(&self) -> bool {
        false
    }

    fn stage(&self, remainder: u32) -> u32 {
        remainder / self.period.max(1)
    }

    fn step(&self, inner: &Key<C>) -> Key<C> {
        renew(inner)
    }

    fn key(&self, inner: &Key<C>, remainder: u32) -> Key<C> {
        derive_from_master(inner, remainder)
    }
}

// A level by that rule has the keys and the note of one by the kind.
fn like_a_master<C: BlockCipher>(quota: u32, period: u32) -> bool {
    let (a, b): (Root<C>, Root<C>) = (rooted(), rooted());
    let mut level = Level::stand(a, Renewing { quota, period });
    let mut master = Level::stand(b, Kind::Master { quota, period });
    numbered(level.note()) == numbered(master.note())
        && key_at(&mut level, 3) == key_at(&mut master, 3)
}

#[test]
fn a_level_by_a_rule_of_another_make(rt: HostRuntime) {
    assert!(rt; like_a_master::<Aes256>(4, 2) && like_a_master::<Magma>(4, 2));
    assert!(rt; like_a_master::<Aes256>(4, 0) && like_a_master::<Magma>(4097, 2));
}
