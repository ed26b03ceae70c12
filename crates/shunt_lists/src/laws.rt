//! What follows from the definitions of this crate.
ghost use Rattle.std.specs.Prelude.{◌≡◌, ◌⊎◌, ◌↔◌, ◌<◌, ◌≤◌, ◌*◌, ◌+◌, ℕ, Bool, true, false, cond};
ghost use Rattle.std.specs.Prelude.{◌&&◌, ◌==◌, IsTrue, List, ◌++◌, map, filter};
ghost use Rattle.std.specs.List.{Contains, flat_map};
ghost use Rattle.shunt_lists.specs.defs.Members.{In};
ghost use Rattle.shunt_lists.specs.defs.Below.{all_below, count_below, sum_below};

/// Members by recursion are members by place; those of lists that are made of others are theirs.
pub fn members<X, Y>()
    ensures contains { (xs : List X) (x : X) → In x xs ↔ Contains xs x }
    ensures append { (xs ys : List X) (x : X) → In x (xs ++ ys) ↔ (In x xs ⊎ In x ys) }
    ensures map { (f : X → Y) (xs : List X) (y : Y) → In y (map f xs)
        ↔ ((x : X) × In x xs × (y ≡ f x)) }
    ensures filter { (p : X → Bool) (xs : List X) (x : X) → In x (filter p xs)
        ↔ (In x xs × (p x ≡ true)) }
    ensures flat { (f : X → List Y) (xs : List X) (y : Y) → In y (flat_map f xs)
        ↔ ((x : X) × In x xs × In y (f x)) }
{}

/// All numbers below one pass a test exactly when each does.
pub fn all_numbers()
    ensures { (n : ℕ) (test : ℕ → Bool) → IsTrue (all_below n test)
        ↔ ((k : ℕ) → k < n → IsTrue (test k)) }
{}

/// Sums over the numbers below one: of sums, of tables by rows and by columns, and of values that are small or alike.
pub fn sums()
    ensures same { (n : ℕ) (f g : ℕ → ℕ) → ((i : ℕ) → i < n → f i ≡ g i)
        → sum_below n f ≡ sum_below n g }
    ensures added { (n : ℕ) (f g : ℕ → ℕ)
        → sum_below n (λ i. f i + g i) ≡ sum_below n f + sum_below n g }
    ensures exchange { (m n : ℕ) (f : ℕ → ℕ → ℕ)
        → sum_below m (λ i. sum_below n (f i)) ≡ sum_below n (λ j. sum_below m (λ i. f i j)) }
    ensures times { (n : ℕ) (p : ℕ → Bool) (x : ℕ)
        → sum_below n (λ i. cond (p i) x 0) ≡ count_below n p * x }
    ensures small { (n most : ℕ) (value : ℕ → ℕ) → ((k : ℕ) → value k ≤ most)
        → sum_below n value ≤ most * n }
{}

/// If each number below m that passes is given a place below n that passes, and each of these is given once, sums and counts
/// over the ones agree with those over the others.
pub fn one_to_one()
    ensures sums { (m n : ℕ) (a b : ℕ → Bool) (place f : ℕ → ℕ)
        → ((u : ℕ) → u < m → a u ≡ true → (place u < n) × (b (place u) ≡ true))
        → ((v : ℕ) → v < n → b v ≡ true → count_below m (λ u. a u && (place u == v)) ≡ 1)
        → sum_below n (λ v. cond (b v) (f v) 0) ≡ sum_below m (λ u. cond (a u) (f (place u)) 0) }
    ensures counts { (m n : ℕ) (a b : ℕ → Bool) (place : ℕ → ℕ) (p : ℕ → Bool)
        → ((u : ℕ) → u < m → a u ≡ true → (place u < n) × (b (place u) ≡ true))
        → ((v : ℕ) → v < n → b v ≡ true → count_below m (λ u. a u && (place u == v)) ≡ 1)
        → count_below n (λ v. b v && p v) ≡ count_below m (λ u. a u && p (place u)) }
{}

/// Counts grow with the numbers and with the test; of the numbers that pass, each has its own rank, and each rank is that of one.
pub fn counts()
    ensures more { (n : ℕ) (p q : ℕ → Bool) → ((i : ℕ) → i < n → p i ≡ true → q i ≡ true)
        → count_below n p ≤ count_below n q }
    ensures longer { (n m : ℕ) (p : ℕ → Bool) → n ≤ m → count_below n p ≤ count_below m p }
    ensures same_rank { (p : ℕ → Bool) (i j : ℕ) → p i ≡ true → p j ≡ true
        → count_below i p ≡ count_below j p → i ≡ j }
    ensures of_rank { (n : ℕ) (p : ℕ → Bool) (k : ℕ) → k < count_below n p
        → (i : ℕ) × (i < n) × (p i ≡ true) × (count_below i p ≡ k) }
{}
