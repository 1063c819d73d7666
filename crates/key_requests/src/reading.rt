// The request that words make.
ghost use Rattle.std.specs.Prelude.{◌≡◌};
ghost use Rattle.key_requests.specs.Requests.{IsAxisStack, IsMaster, IsRootStack, NumberRead, PlanRead, KeyRead};

use crate::request::{KeyFault, KeyRequest, KeyWords};
use stacks::{AxisStack, Plan};
use std::alloc::Global;
use text::{from_decimal, from_hex, is};

// The stack on an axis that a word names. No TryFrom: the enum is of another crate, and a word that names none is not a
// fault yet, since it may name a stack without an axis.
fn axis_stack(word: &[u8]) -> Option<AxisStack>
    ensures { IsAxisStack word.now result }
{
    match word {
        b"1" => Some(AxisStack::Chain),
        b"2" => Some(AxisStack::Master),
        b"3" => Some(AxisStack::SerialChain),
        b"4" => Some(AxisStack::FanFanChain),
        _ => None,
    }
}

// The period of the master that a word names.
fn master_period(word: &[u8]) -> Option<u32>
    ensures { IsMaster word.now result }
{
    let digits = word.strip_prefix(b"master:")?;
    from_decimal(digits)
}

// The stack with no axis that a word names, in the same form.
#[tactic(auto, using(crate::proofs::Words::long_word))]
fn root_stack(word: &[u8]) -> Option<Plan>
    ensures { IsRootStack word.now result }
{
    if let Some(period) = master_period(word) {
        return Some(Plan::OneMaster(period));
    }
    match word {
        b"fan" => Some(Plan::OneFan),
        b"serial" => Some(Plan::OneSerial),
        b"chain" => Some(Plan::OneChain),
        _ => None,
    }
}

fn read_number(text: &[u8]) -> Result<u32, KeyFault>
    ensures { NumberRead text.now result }
{
    from_decimal(text).ok_or(KeyFault::Number)
}

// The plan that a stack and its axis make.
fn read_plan(stack: &[u8], axis: &[u8]) -> Result<Plan, KeyFault>
    ensures { PlanRead stack.now axis.now result }
{
    if let Some(stack) = axis_stack(stack) {
        return Ok(Plan::OnAxis(stack, read_number(axis)?));
    }
    let plan = root_stack(stack).ok_or(KeyFault::Stack)?;
    if !is(axis, "-") {
        return Err(KeyFault::Axis);
    }
    Ok(plan)
}

// The request that the words make.
pub fn read_key_request(heap: Global, words: KeyWords) -> Result<KeyRequest, KeyFault>
    ensures { KeyRead words.entry result }
{
    let plan = read_plan(words.stack, words.axis)?;
    let quota = read_number(words.quota)?;
    let key = from_hex(heap, words.key)?;
    let number = read_number(words.number)?;
    Ok(KeyRequest {
        plan,
        quota,
        key,
        number,
    })
}
