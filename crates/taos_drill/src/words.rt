//! The words that a drill draws.

ghost use Rattle.std.specs.Prelude.{◌≡◌, ℕ, ◌+◌, ◌<◌, ◌≤◌, IfOk, length};
ghost use Rattle.rand_core.specs.Steps.{fill_via_u32};
ghost use Rattle.rand_chacha.specs.ChaCha.{next_word};
ghost use Rattle.taos_drill.specs.Words.{generator_at, key_at, keys_of, seed_of, words_of};

use crate::numbers::{MAX_LANES, MAX_REQUESTS};
use rand_chacha::ChaCha20Rng;
use rand_core::SeedableRng;
use rand_core::utils::{NextWord, fill_bytes_via_u32};
use std::alloc::{AllocError, Global};

// The last byte of a generator's seed: of the words of requests, and of those of keys.
const OF_REQUESTS: u8 = 0;

const OF_KEYS: u8 = 1;

fn seed_of(seed: u64, last: u8) -> [u8; 32]
    ensures { result ≡ seed_of seed last }
{
    let mut bytes = [0; 32];
    bytes[..8].copy_from_slice(&seed.to_be_bytes());
    bytes[31] = last;
    bytes
}

// A generator at its start.
fn generator(seed: u64, last: u8) -> ChaCha20Rng
    ensures { result ≡ generator_at seed last 0 }
{
    ChaCha20Rng::from_seed(seed_of(seed, last))
}

// The next eight words as bytes.
fn next_key(rng: &mut ChaCha20Rng) -> [u8; 32]
    ensures { (result, rng.new) ≡ fill_via_u32 (next_word 10) 32 rng.old }
{
    let mut key = [0; 32];
    fill_bytes_via_u32(rng, &mut key);
    key
}

// The relay's key, and those of the channels in their order.
pub(crate) fn keys_of(alloc: Global, seed: u64, lanes: u32) -> Result<Vec<[u8; 32]>, AllocError>
    requires { lanes ≤ MAX_LANES }
    ensures keys { IfOk result (λ keys. keys.items ≡ keys_of seed lanes) }
    ensures count { IfOk result (λ keys. length keys.items ≡ lanes + 1) }
{
    let count = lanes + 1;
    let mut rng = generator(seed, OF_KEYS);
    let mut keys = Vec::with_capacity(alloc, count as usize)?;
    for _ in 0..count {
        keys.push(next_key(&mut rng))?;
    }
    Ok(keys)
}

// The key of a number.
pub(crate) fn key_at(keys: &[[u8; 32]], number: u32) -> [u8; 32]
    requires { number < length keys.now }
    ensures { (seed lanes : ℕ) → keys.now ≡ keys_of seed lanes → result ≡ key_at seed number }
{
    keys[number as usize]
}

// The words of the requests, in their order.
pub(crate) fn words_of(alloc: Global, seed: u64, requests: u32) -> Result<Vec<u32>, AllocError>
    requires { requests ≤ MAX_REQUESTS }
    ensures words { IfOk result (λ words. words.items ≡ words_of seed requests) }
    ensures count { IfOk result (λ words. length words.items ≡ requests) }
{
    let mut rng = generator(seed, OF_REQUESTS);
    let mut words = Vec::with_capacity(alloc, requests as usize)?;
    for _ in 0..requests {
        words.push(rng.next_word())?;
    }
    Ok(words)
}
