// Counter mode for C: the function of speed, exported for the benchmark of speed/run.
#![tactic(auto)]

ghost use Rattle.std.specs.Prelude.{◌≡◌, replicate};
ghost use Rattle.aes.specs.Aes.{the_model};
ghost use Rattle.speed.specs.Counter.{checksum};

// The numbers below count, enciphered by AES-256 under a key of sevens, and summed.
#[unsafe(no_mangle)]
pub extern "C" fn rattle_aes(count: u32) -> u32
    ensures { result ≡ checksum the_model (replicate 32 7) count }
{
    speed::rattle_aes(count)
}
