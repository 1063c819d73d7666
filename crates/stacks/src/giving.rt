// The keys of the stacks.
ghost use Rattle.std.specs.Prelude.{◌≡◌, List, [], ◌∷◌, length, replicate, None};
ghost use Rattle.rules.specs.declared.kind.Kind.{Kind};
ghost use Rattle.keys.specs.Bottom.{rooted};
ghost use Rattle.stacks.specs.Stacks.{planned, built};
ghost use Rattle.stacks.specs.Keys.{KeyGiven};

use crate::plan::{AxisStack, Plan};
use crate::refusal::KeyRefusal;
use cipher::{BlockCipher, KeyBuffer};
use keys::{KeySource, Root};
use levels::Level;
use rules::Kind;

const AXIS_PERIOD: u32 = 16;

const UPPER_FAN: Kind = Kind::Fan { quota: 16 };

const UPPER_CHAIN: Kind = Kind::Chain { quota: 8 };

// Levels to be made on one another: none, or the kind of the lowest and the levels above it.
trait Levels<C: BlockCipher>: Sized + Drop {
    // Their kinds, from the bottom up.
    ghost kinds: { Self → List Kind };

    // Makes them on a source, and writes the key of that number, unless a making was refused.
    fn give<S: KeySource<C>>(
        self,
        below: S,
        number: u32,
        out: &mut KeyBuffer,
    ) -> Result<(), KeyRefusal>
        ensures { S.KeySource.stands below ≡ None → KeyGiven C.BlockCipher.model (built (kinds self) (S.KeySource.stack below)) number out.old out.new result };
}

impl<C: BlockCipher> Levels<C> for () {
    ghost kinds = { λ _. [] };

    fn give<S: KeySource<C>>(
        self,
        mut below: S,
        number: u32,
        out: &mut KeyBuffer,
    ) -> Result<(), KeyRefusal> {
        below.note()?;
        below.move_to(number, out)?;
        Ok(())
    }
}

impl<C: BlockCipher, L: Levels<C>> Levels<C> for (Kind, L) {
    ghost kinds = { λ l. l.0 ∷ L.Levels.kinds l.1 };

    fn give<S: KeySource<C>>(
        self,
        below: S,
        number: u32,
        out: &mut KeyBuffer,
    ) -> Result<(), KeyRefusal> {
        let (lowest, above) = self;
        above.give(Level::stand(below, lowest), number, out)
    }
}

// Writes the key of that number of a stack on the root of a key, whose buffer is all zeros afterwards. The quota stands beside
// the plan, since words give the two apart, and a quota may be out of its range.
pub fn key_of<C: BlockCipher>(
    plan: Plan,
    quota: u32,
    key: &mut [u8],
    number: u32,
    out: &mut KeyBuffer,
) -> Result<(), KeyRefusal>
    ensures zeros { key.new ≡ replicate (length key.old) 0 }
    ensures cases { KeyGiven C.BlockCipher.model (built (planned plan quota) (rooted C.BlockCipher.model.key key.old)) number out.old out.new result }
{
    let root: Root<C> = Root::from_key(key);
    let (fan, serial, chain) = (
        Kind::Fan { quota },
        Kind::Serial { quota },
        Kind::Chain { quota },
    );
    match plan {
        Plan::OnAxis(stack, number_of_axis) => {
            let axis = Kind::Branch {
                number: number_of_axis,
            };
            match stack {
                AxisStack::Chain => (axis, (chain, ())).give(root, number, out),
                AxisStack::Master => {
                    let master = Kind::Master {
                        quota,
                        period: AXIS_PERIOD,
                    };
                    (axis, (master, ())).give(root, number, out)
                }
                AxisStack::SerialChain => {
                    (axis, (serial, (UPPER_CHAIN, ()))).give(root, number, out)
                }
                AxisStack::FanFanChain => {
                    (axis, (fan, (UPPER_FAN, (UPPER_CHAIN, ())))).give(root, number, out)
                }
            }
        }
        Plan::OneFan => (fan, ()).give(root, number, out),
        Plan::OneSerial => (serial, ()).give(root, number, out),
        Plan::OneChain => (chain, ()).give(root, number, out),
        Plan::OneMaster(period) => (Kind::Master { quota, period }, ()).give(root, number, out),
    }
}
