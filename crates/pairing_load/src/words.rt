// The words of the command line.
ghost use Rattle.std.specs.Prelude.{◌≡◌, ◌≢◌, ◌<◌, ◌≤◌, ◌^◌, ◌↔◌, ℕ, List, IfSome, IsNone, IsTrue};
ghost use Rattle.std.specs.Fmt.{decimal};
ghost use Rattle.pairing_load.specs.Words.{IsPlain, AreWordsOfPairings, AreWordsOfPrices, TellPairings, TellPrices, costs_word, texts};
ghost use Rattle.pairing_load.specs.declared.problems.EdgeCosts.{EdgeCosts};
ghost use Rattle.pairing_load.specs.declared.words.PairingLoad.{PairingLoad};
ghost use Rattle.pairing_load.specs.declared.words.PriceLoad.{PriceLoad};

use crate::problems::{EdgeCosts, SIZE_LIMIT};

// The most problems or certificates of a load.
const MAX_COUNT: u64 = 4_294_967_295;

/// Assignment problems that are to be solved.
#[derive(Clone, Copy, Debug, PartialEq, Eq)]
pub struct PairingLoad {
    /// How many problems there are.
    pub count: u32,
    /// How many plots each has, and how many tracks, from 1 to 1,000.
    pub size: u32,
    /// What the edges cost.
    pub costs: EdgeCosts,
    /// What the costs are drawn from.
    pub seed: u64,
}

/// Certificates that are to be written.
#[derive(Clone, Copy, Debug, PartialEq, Eq)]
pub struct PriceLoad {
    /// How many certificates there are.
    pub count: u32,
    /// What the costs are drawn from.
    pub seed: u64,
}

// Whether a word begins neither with a sign nor with a zero that more octets follow.
fn is_plain(octets: &[u8]) -> bool
    ensures { IsTrue result ↔ IsPlain octets.now }
{
    !matches!(octets, [b'+', ..] | [b'0', _, ..])
}

// The number that a word tells: decimal digits, without a sign and without a leading zero.
fn read_number(word: &str) -> Option<u64>
    ensures told { IfSome result (λ n. word.now ≡ decimal n) }
    ensures fits { IfSome result (λ n. n < 2 ^ 64) }
    ensures refused { IsNone result → (n : ℕ) → n < 2 ^ 64 → word.now ≢ decimal n }
{
    if is_plain(word.as_bytes()) {
        word.parse::<u64>().ok()
    } else {
        None
    }
}

// The number that a word tells, below 2^32.
fn read_count(word: &str) -> Option<u32>
    ensures told { IfSome result (λ n. word.now ≡ decimal n) }
    ensures fits { IfSome result (λ n. n < 2 ^ 32) }
    ensures refused { IsNone result → (n : ℕ) → n < 2 ^ 32 → word.now ≢ decimal n }
{
    let number = read_number(word)?;
    if number <= MAX_COUNT {
        Some(number as u32)
    } else {
        None
    }
}

// The number of plots that a word tells.
fn read_size(word: &str) -> Option<u32>
    ensures told { IfSome result (λ n. word.now ≡ decimal n) }
    ensures some { IfSome result (λ n. 1 ≤ n) }
    ensures few { IfSome result (λ n. n ≤ SIZE_LIMIT) }
    ensures refused { IsNone result → (n : ℕ) → 1 ≤ n → n ≤ SIZE_LIMIT → word.now ≢ decimal n }
{
    let plots = read_count(word)?;
    if 1 <= plots && plots <= SIZE_LIMIT {
        Some(plots)
    } else {
        None
    }
}

// The costs that a word names: `random` or `equal`.
fn read_costs(word: &str) -> Option<EdgeCosts>
    ensures told { IfSome result (λ k. word.now ≡ costs_word k) }
    ensures refused { IsNone result → (k : EdgeCosts) → word.now ≢ costs_word k }
{
    if word == "random" {
        Some(EdgeCosts::Random)
    } else if word == "equal" {
        Some(EdgeCosts::Equal)
    } else {
        None
    }
}

// The problems that words after `pairings` tell.
fn pairings_with(
    count_text: &str,
    size_text: &str,
    costs_text: &str,
    seed_text: &str,
) -> Option<PairingLoad>
    ensures load { IfSome result (λ load. TellPairings count_text.now size_text.now costs_text.now seed_text.now load) }
    ensures other { IsNone result → (load : PairingLoad) → TellPairings count_text.now size_text.now costs_text.now seed_text.now load → ⊥ }
{
    Some(PairingLoad {
        count: read_count(count_text)?,
        size: read_size(size_text)?,
        costs: read_costs(costs_text)?,
        seed: read_number(seed_text)?,
    })
}

/// The problems that the words are: `pairings COUNT SIZE random|equal SEED`.
pub fn pairings_of(words: &[String]) -> Option<PairingLoad>
    ensures load { IfSome result (λ load. AreWordsOfPairings (texts words.now) load) }
    ensures other { IsNone result → (load : PairingLoad) → AreWordsOfPairings (texts words.now) load → ⊥ }
{
    let [command, count, size, costs, seed] = words else {
        return None;
    };
    if command.as_str() != "pairings" {
        return None;
    }
    pairings_with(count.as_str(), size.as_str(), costs.as_str(), seed.as_str())
}

// The certificates that words after `prices` tell.
fn prices_with(count_text: &str, seed_text: &str) -> Option<PriceLoad>
    ensures load { IfSome result (λ load. TellPrices count_text.now seed_text.now load) }
    ensures other { IsNone result → (load : PriceLoad) → TellPrices count_text.now seed_text.now load → ⊥ }
{
    Some(PriceLoad {
        count: read_count(count_text)?,
        seed: read_number(seed_text)?,
    })
}

/// The certificates that the words are, and the name of their file: `prices COUNT SEED OUTPUT`.
pub fn prices_of(words: &[String]) -> Option<(PriceLoad, &str)>
    ensures load { IfSome result (λ r. AreWordsOfPrices (texts words.now) r.0 r.1.now) }
    ensures other { IsNone result → (load : PriceLoad) (output : List ℕ) → AreWordsOfPrices (texts words.now) load output → ⊥ }
{
    let [command, count, seed, output] = words else {
        return None;
    };
    if command.as_str() != "prices" {
        return None;
    }
    let load = prices_with(count.as_str(), seed.as_str())?;
    Some((load, output.as_str()))
}
