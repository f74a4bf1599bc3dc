ghost use Rattle.std.specs.Prelude.{◌≡◌, Bool, ℕ, [], map};
ghost use Rattle.sql_flat_law.specs.Rose.{Rose, flat, rose_all, rose_map};

/// Two trees with one flat list are one, where a node shows its kind and its end.
pub fn one_list_has_one_tree<K, N>()
    ensures { (make : K → ℕ → N) (kind : N → K) (end : N → ℕ)
        → ((k : K) (e : ℕ) → kind (make k e) ≡ k) → ((k : K) (e : ℕ) → end (make k e) ≡ e)
        → (a b : Rose K) → flat make 0 a [] ≡ flat make 0 b [] → a ≡ b }
{}

/// The flat list of a tree with a map over its kinds is the map over the nodes of its flat list.
#[tactic(auto, using(crate::proofs::Maps::maps))]
pub fn lists_of_maps_are_maps_of_lists<K, J, N, M>()
    ensures { (make : K → ℕ → N) (turned : J → ℕ → M) (f : K → J) (g : N → M)
        → ((k : K) (e : ℕ) → g (make k e) ≡ turned (f k) e) → (t : Rose K)
        → flat turned 0 (rose_map f t) [] ≡ map g (flat make 0 t []) }
{}

/// A test holds of each kind after a map exactly where the test of what the map gives holds before it.
#[tactic(auto, using(crate::proofs::Maps::maps))]
pub fn tests_of_maps_are_tests_before<K, J>()
    ensures { (f : K → J) (test : J → Bool) (t : Rose K)
        → rose_all test (rose_map f t) ≡ rose_all (λ k. test (f k)) t }
{}
