// The request that a line asks for.
ghost use Rattle.std.specs.Prelude.{◌<◌, ◌≤◌, [], ◌∷◌, map, length};
ghost use Rattle.vectors.specs.Ciphers.{model_of};
ghost use Rattle.vectors.specs.Requests.{action_word, FrontRead, TimesRead, Read, Parsed};

use crate::kinds::{Action, CipherName, Fault, Request, Task};
use cipher::{BlockBuffer, KeyBuffer};
use std::alloc::Global;
use text::{from_decimal, from_hex, split_words};

pub const LONGEST_LINE: usize = 4096;

const MOST_RENEWALS: u32 = 4096;

// The n bytes that the digits spell, at the front of a buffer of zeros; `wrong` is the fault where they are not as many.
fn read_front<const N: usize>(
    heap: Global,
    text: &[u8],
    n: usize,
    wrong: Fault,
) -> Result<[u8; N], Fault>
    requires { n ≤ N }
    ensures { FrontRead N n wrong text.now result }
{
    let bytes = from_hex(heap, text)?;
    if bytes.len() != n {
        return Err(wrong);
    }
    let mut buffer = [0; N];
    buffer[..n].copy_from_slice(&bytes);
    Ok(buffer)
}

fn read_key(heap: Global, cipher: CipherName, text: &[u8]) -> Result<KeyBuffer, Fault>
    ensures { FrontRead 32 (model_of cipher).key Fault.KeyLength text.now result }
{
    read_front(heap, text, cipher.key_len(), Fault::KeyLength)
}

fn read_block(heap: Global, cipher: CipherName, text: &[u8]) -> Result<BlockBuffer, Fault>
    ensures { FrontRead 16 (model_of cipher).block Fault.BlockLength text.now result }
{
    read_front(heap, text, cipher.block_len(), Fault::BlockLength)
}

fn read_times(text: &[u8]) -> Result<u32, Fault>
    ensures { TimesRead text.now result }
{
    let times = from_decimal(text).ok_or(Fault::Number)?;
    if times > MOST_RENEWALS {
        return Err(Fault::Range);
    }
    Ok(times)
}

// The request that a first word and three more make.
#[tactic(auto, using(crate::proofs::Reading::last_refused))]
fn read_fields(
    heap: Global,
    action: Action,
    cipher: &[u8],
    key: &[u8],
    last: &[u8],
) -> Result<Request, Fault>
    ensures { Read (action_word action ∷ cipher.now ∷ key.now ∷ last.now ∷ []) result }
{
    let cipher = CipherName::try_from(cipher)?;
    let key = read_key(heap, cipher, key)?;
    let task = match action {
        Action::Encipher => Task::Encipher(read_block(heap, cipher, last)?),
        Action::Decipher => Task::Decipher(read_block(heap, cipher, last)?),
        Action::Renew => Task::Renew(read_times(last)?),
    };
    Ok(Request { cipher, key, task })
}

// The request that the words of a line make.
fn read(heap: Global, action: &[u8], fields: &[&[u8]]) -> Result<Request, Fault>
    ensures { Read (action.now ∷ map (λ x. x.now) fields.now) result }
{
    let action = Action::try_from(action)?;
    let [cipher, key, last] = fields else {
        return Err(Fault::WordCount);
    };
    read_fields(heap, action, cipher, key, last)
}

// The request that a line asks for.
pub fn parse(heap: Global, line: &[u8]) -> Result<Request, Fault>
    ensures { Parsed line.now result }
{
    if line.len() > LONGEST_LINE {
        return Err(Fault::LongLine);
    }
    let words = split_words(heap, line)?;
    let Some((action, fields)) = words.split_first() else {
        unreachable!();
    };
    read(heap, action, fields)
}
