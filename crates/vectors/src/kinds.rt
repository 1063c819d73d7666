// What a request asks for, and why a line is none.
ghost use Rattle.std.specs.Prelude.{◌≡◌, ◌≤◌, Some};
ghost use Rattle.vectors.specs.declared.kinds.Fault.TheVariants.{Memory as no_memory};
ghost use Rattle.vectors.specs.Ciphers.{model_of};
ghost use Rattle.vectors.specs.Faults.{of_hex, message};
ghost use Rattle.vectors.specs.Requests.{ActionRead, CipherRead};

use aes::Aes256;
use cipher::{BlockBuffer, BlockCipher, KeyBuffer};
use magma::Magma;
use std::alloc::AllocError;
use std::error::Error;
use std::fmt;
use text::HexFault;

#[derive(Clone, Copy, Debug, PartialEq, Eq)]
pub enum CipherName {
    Aes256,
    Magma,
}

impl CipherName {
    // The bytes of a key.
    pub fn key_len(self) -> usize
        ensures value { result ≡ (model_of self).key }
        ensures bound { result ≤ 32 }
    {
        match self {
            CipherName::Aes256 => Aes256::key_len(),
            CipherName::Magma => Magma::key_len(),
        }
    }

    // The bytes of a block.
    pub fn block_len(self) -> usize
        ensures value { result ≡ (model_of self).block }
        ensures bound { result ≤ 16 }
    {
        match self {
            CipherName::Aes256 => Aes256::block_len(),
            CipherName::Magma => Magma::block_len(),
        }
    }
}

// As that of Action below: an impl is of one type, and each has words of its own.
impl TryFrom<&[u8]> for CipherName {
    type Error = Fault;

    ghost try_from_gives = { λ word r. CipherRead word.now r };

    fn try_from(word: &[u8]) -> Result<CipherName, Fault> {
        match word {
            b"aes256" => Ok(CipherName::Aes256),
            b"magma" => Ok(CipherName::Magma),
            _ => Err(Fault::UnknownCipher),
        }
    }
}

#[derive(Clone, Copy, Debug, PartialEq, Eq)]
pub enum Action {
    Encipher,
    Decipher,
    Renew,
}

impl TryFrom<&[u8]> for Action {
    type Error = Fault;

    ghost try_from_gives = { λ word r. ActionRead word.now r };

    fn try_from(word: &[u8]) -> Result<Action, Fault> {
        match word {
            b"encipher" => Ok(Action::Encipher),
            b"decipher" => Ok(Action::Decipher),
            b"renew" => Ok(Action::Renew),
            _ => Err(Fault::UnknownRequest),
        }
    }
}

// What is to be done with a cipher under a key. Zeros follow a block that is shorter than its buffer.
#[derive(Clone, Copy)]
pub enum Task {
    Encipher(BlockBuffer),
    Decipher(BlockBuffer),
    Renew(u32),
}

// Keys and blocks stand in buffers, since a request is read before its cipher is a type. Zeros follow a key that is shorter.
#[derive(Clone, Copy)]
pub struct Request {
    pub cipher: CipherName,
    pub key: KeyBuffer,
    pub task: Task,
}

// Why a line is no request, or that there is no memory to tell.
#[derive(Clone, Copy, Debug, PartialEq, Eq)]
pub enum Fault {
    LongLine,
    UnknownRequest,
    WordCount,
    UnknownCipher,
    Hexadecimal,
    KeyLength,
    BlockLength,
    Number,
    Range,
    Memory,
}

impl fmt::Display for Fault {
    ghost output = { λ f. Some (message f) };

    fn fmt<W: fmt::Write>(&self, f: &mut fmt::Formatter<W>) -> fmt::Result {
        f.write_str(match self {
            Fault::LongLine => "error: line too long",
            Fault::UnknownRequest => "error: unknown request",
            Fault::WordCount => "error: wrong number of words",
            Fault::UnknownCipher => "error: unknown cipher",
            Fault::Hexadecimal => "error: bad hexadecimal",
            Fault::KeyLength => "error: wrong key length",
            Fault::BlockLength => "error: wrong block length",
            Fault::Number => "error: bad number",
            Fault::Range => "error: number out of range",
            Fault::Memory => "error: no memory",
        })
    }
}

impl Error for Fault {}

impl From<AllocError> for Fault {
    ghost from_gives = { λ _ f. f ≡ no_memory };

    fn from(_none: AllocError) -> Fault {
        Fault::Memory
    }
}

// Its like in key_requests makes another enum: an impl is of one type.
impl From<HexFault> for Fault {
    ghost from_gives = { λ h f. f ≡ of_hex h };

    fn from(fault: HexFault) -> Fault {
        match fault {
            HexFault::Digits => Fault::Hexadecimal,
            HexFault::Memory => Fault::Memory,
        }
    }
}
