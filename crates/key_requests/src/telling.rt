// The text that answers a request for a key.
ghost use Rattle.std.specs.Prelude.{◌≡◌, take, IfOk, string_bytes};
ghost use Rattle.text.specs.Hex.{encoded};
ghost use Rattle.stacks.specs.Keys.{refusal as refusal_of, KeyGiven};
ghost use Rattle.key_requests.specs.Keys.{asked, refusal_text as refusal_text_of, KeyTold};

use crate::request::KeyRequest;
use cipher::{BlockCipher, Key, KeyBuffer};
use keys::Refusal;
use stacks::{KeyRefusal, key_of};
use std::alloc::{AllocError, Global};
use text::to_hex;

// The number of the refusal for a stack that cannot be made.
const STACK_REFUSED: u32 = 7;

// The text of a refusal: its number, and the values that are told with it. As a `Display` it would stand in `stacks`, and
// with it the definition of the text: that crate tells nothing.
#[tactic(auto, using(crate::proofs::Texts::stack_text, crate::proofs::Texts::move_text))]
fn refusal_text(heap: Global, refusal: KeyRefusal) -> Result<String, AllocError>
    ensures { IfOk result (λ s. string_bytes s ≡ refusal_text_of (refusal_of refusal)) }
{
    match refusal {
        KeyRefusal::Stack(Refusal { level, fault }) => {
            let number = fault.number();
            format!(in heap; "refused {STACK_REFUSED} {level} {number}")
        }
        KeyRefusal::Move(fault) => {
            let number = fault.number();
            format!(in heap; "refused {number}")
        }
    }
}

// The digits of the key at the front of a buffer.
fn key_text<C: BlockCipher>(heap: Global, key: &KeyBuffer) -> Result<String, AllocError>
    ensures { IfOk result (λ s. string_bytes s ≡ encoded (take C.BlockCipher.model.key key.now)) }
{
    to_hex(heap, Key::<C>::new(key).as_slice())
}

// Writes the key that a request asks for.
fn write_key<C: BlockCipher>(request: KeyRequest, out: &mut KeyBuffer) -> Result<(), KeyRefusal>
    ensures { KeyGiven C.BlockCipher.model (asked C.BlockCipher.model request) request.number out.old out.new result }
{
    let KeyRequest {
        plan,
        quota,
        mut key,
        number,
    } = request;
    key_of::<C>(plan, quota, key.as_mut_slice(), number, out)
}

// The text that answers a request: the key, or its refusal.
pub fn answer_key<C: BlockCipher>(heap: Global, request: KeyRequest) -> Result<String, AllocError>
    ensures { IfOk result (λ s. KeyTold C.BlockCipher.model request (string_bytes s)) }
{
    let mut key = [0; 32];
    match write_key::<C>(request, &mut key) {
        Ok(()) => key_text::<C>(heap, &key),
        Err(refusal) => refusal_text(heap, refusal),
    }
}
