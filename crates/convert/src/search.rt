// Looking through the numbers below n for one that passes a test. Each contract speaks of any number m that n is, and of any test t of the
// definitions whose answers the closure gives: so a caller's definition is met as it stands, with no lemma between.
ghost use Rattle.std.specs.Prelude.{◌≡◌, ◌-◌, ℕ, ◌<◌, ◌≤◌};
ghost use Rattle.words.specs.Search.{some_below, first_below, last_below};
ghost use Rattle.convert.specs.Tests.{TestsAs};

// Some number below n passes.
pub fn some_below<F: Fn(usize) -> bool>(n: usize, test: F) -> bool
    requires { (i : ℕ) → i < n → F.pre test i }
    ensures { (m : ℕ) (t : _) → n ≡ m → TestsAs (F.post test) n t → result ≡ some_below m t }
{
    for i in 0..n {
        if test(i) {
            return true;
        }
    }
    false
}

// The least number below n that passes; n where none does.
pub fn first_below<F: Fn(usize) -> bool>(n: usize, test: F) -> usize
    requires { (i : ℕ) → i < n → F.pre test i }
    ensures value { (m : ℕ) (t : _) → n ≡ m → TestsAs (F.post test) n t → result ≡ first_below m t }
    ensures small { result ≤ n }
{
    for i in 0..n {
        if test(i) {
            return i;
        }
    }
    n
}

// The greatest number below n that passes; 0 where none does.
pub fn last_below<F: Fn(usize) -> bool>(n: usize, test: F) -> usize
    requires { (i : ℕ) → i < n → F.pre test i }
    ensures value { (m : ℕ) (t : _) → n ≡ m → TestsAs (F.post test) n t → result ≡ last_below m t }
    ensures small { result ≤ n - 1 }
{
    for i in (0..n).rev() {
        if test(i) {
            return i;
        }
    }
    0
}
