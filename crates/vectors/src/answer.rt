// What a line is answered with.
ghost use Rattle.std.specs.Prelude.{◌≡◌, take, IfOk, string_bytes};
ghost use Rattle.cipher.specs.Derivation.{renewed as renewed_of};
ghost use Rattle.text.specs.Hex.{encoded};
ghost use Rattle.vectors.specs.Answers.{repeated, done, answered, Answers};

use crate::kinds::{CipherName, Request, Task};
use crate::request::parse;
use aes::Aes256;
use cipher::{Block, BlockCipher, Key, KeyBuffer, renew};
use magma::Magma;
use std::alloc::{AllocError, Global};
use text::to_hex;

// The key renewed so many times.
fn renewed<C: BlockCipher>(key: Key<C>, times: u32) -> Key<C>
    ensures { result ≡ repeated times (renewed_of C.BlockCipher.model) key }
{
    let mut last = key;
    for _ in 0..times {
        last = renew(&last);
    }
    last
}

// The digits of what is to be done under a key.
fn perform<C: BlockCipher>(heap: Global, key: &KeyBuffer, task: Task) -> Result<String, AllocError>
    ensures { IfOk result (λ s. string_bytes s ≡ encoded (done C.BlockCipher.model key.now task)) }
{
    let key = Key::new(key);
    // The first two differ in the call alone, which a closure would make no shorter.
    match task {
        Task::Encipher(buffer) => {
            let mut block = Block::new(&buffer);
            C::schedule(&key).encipher(&mut block);
            to_hex(heap, block.as_slice())
        }
        Task::Decipher(buffer) => {
            let mut block = Block::new(&buffer);
            C::schedule(&key).decipher(&mut block);
            to_hex(heap, block.as_slice())
        }
        Task::Renew(times) => to_hex(heap, renewed::<C>(key, times).as_slice()),
    }
}

// The digits of what a request asks for.
fn carry_out(heap: Global, request: Request) -> Result<String, AllocError>
    ensures { IfOk result (λ s. string_bytes s ≡ encoded (answered request)) }
{
    let Request { cipher, key, task } = request;
    match cipher {
        CipherName::Aes256 => perform::<Aes256>(heap, &key, task),
        CipherName::Magma => perform::<Magma>(heap, &key, task),
    }
}

// The answer to a line.
pub fn answer(heap: Global, line: &[u8]) -> Result<String, AllocError>
    ensures { IfOk result (λ s. Answers line.now (string_bytes s)) }
{
    match parse(heap, line) {
        Ok(request) => carry_out(heap, request),
        Err(fault) => fault.to_string(heap),
    }
}
