// Words that are numbers.
ghost use Rattle.std.specs.Prelude.{◌≡◌, ◌≢◌, ◌↔◌, ℕ, ◌<◌, ◌≤◌, IsTrue, MatchOption};
ghost use Rattle.std.specs.Fmt.{decimal};
ghost use Rattle.solver_top.specs.Words.{IsCommits, IsCount, IsRounds, IsSeed, IsWorkers};

use itoa::Buffer;

// The number that a word is, without sign or leading zero, from the least to the most.
fn number(word: &str, least: u64, most: u64) -> Option<u64>
    ensures { MatchOption result ((n : ℕ) → least ≤ n → n ≤ most → word.now ≢ decimal n)
        (λ n. (least ≤ n) × (n ≤ most) × (word.now ≡ decimal n)) }
{
    let Ok(n) = word.parse::<u64>() else {
        return None;
    };
    if n < least || n > most {
        return None;
    }
    if is_decimal(word, n) { Some(n) } else { None }
}

fn is_decimal(word: &str, n: u64) -> bool
    ensures { IsTrue result ↔ (word.now ≡ decimal n) }
{
    Buffer::new().format(n) == word
}

// The count of points that a word is.
pub fn count_of(word: &str) -> Option<u32>
    ensures { MatchOption result (¬ IsCount word.now) (λ n. (3 ≤ n) × (n ≤ 5000) × (word.now ≡ decimal n)) }
{
    match number(word, 3, 5000) {
        Some(n) => Some(n as u32),
        None => None,
    }
}

// The seed that a word is.
pub fn seed_of(word: &str) -> Option<u64>
    ensures { MatchOption result (¬ IsSeed word.now) (λ n. word.now ≡ decimal n) }
{
    number(word, 0, u64::MAX)
}

// The number of workers that a word is.
pub fn workers_of(word: &str) -> Option<u32>
    ensures { MatchOption result (¬ IsWorkers word.now) (λ n. (n ≤ 16) × (word.now ≡ decimal n)) }
{
    match number(word, 0, 16) {
        Some(n) => Some(n as u32),
        None => None,
    }
}

// The number of commits that a word is.
pub fn commits_of(word: &str) -> Option<u32>
    ensures { MatchOption result (¬ IsCommits word.now) (λ n. (n ≤ 200000) × (word.now ≡ decimal n)) }
{
    match number(word, 0, 200_000) {
        Some(n) => Some(n as u32),
        None => None,
    }
}

// The number of rounds that a word is.
pub fn rounds_of(word: &str) -> Option<u32>
    ensures { MatchOption result (¬ IsRounds word.now) (λ n. (n ≤ 1000) × (word.now ≡ decimal n)) }
{
    match number(word, 0, 1000) {
        Some(n) => Some(n as u32),
        None => None,
    }
}
