ghost use Rattle.std.specs.Prelude.{◌≡◌, ◌+◌, Bool, ℕ, List, [], ◌∷◌, Option, suc, true};
ghost use Rattle.sql_flat_law.specs.Rose.{Rose, Roses, flat, flats, size, sizes};
ghost use Rattle.sql_flat_law.specs.Around.{walk};
ghost use Rattle.sql_flat_law.specs.Backward.{run};
ghost use Rattle.sql_flat_law.specs.Folds.{folded, gathered, sites};
ghost use Rattle.sql_flat_law.specs.Forward.{gather};
ghost use Rattle.sql_flat_law.specs.Telling.{tell};
ghost use Rattle.sql_flat_law.specs.Told.{told};

/// A loop from the last node to the first, with a stack of what the trees after it give, ends with what the whole tree gives.
pub fn backward_loops_fold<K, N, A>()
    ensures { (make : K → ℕ → N) (kind : N → K) (end : N → ℕ) (over : K → List A → A)
        → ((k : K) (e : ℕ) → kind (make k e) ≡ k) → ((k : K) (e : ℕ) → end (make k e) ≡ e)
        → (t : Rose K) → run kind end over 0 (flat make 0 t []) ≡ (0, folded over t) ∷ [] }
{}

/// A loop from the first node to the last, with a stack of what is known within the open nodes, knows at each node what is known
/// around it and within it.
pub fn loops_with_a_stack_know_what_is_around<V, K, N>()
    ensures { (make : K → ℕ → N) (kind : N → K) (end : N → ℕ) (outer : V) (keeps : K → Bool)
        (reads : V → ℕ → N → List N → V)
        → ((k : K) (e : ℕ) → kind (make k e) ≡ k) → ((k : K) (e : ℕ) → end (make k e) ≡ e)
        → (below : V → K → Roses K → V)
        → ((k : K) (v : V) (ts : Roses K) → keeps k ≡ true → below v k ts ≡ v)
        → ((v : V) (n : ℕ) (k : K) (ts : Roses K) (rest : List N)
        → reads v n (make k (n + suc (sizes ts))) (flats make (n + 1) ts rest) ≡ below v k ts)
        → (t : Rose K)
        → walk kind end outer keeps reads [] 0 (flat make 0 t []) ≡ sites below outer t }
{}

/// A loop from the first node of a tree to its end that passes over what is inside nodes of some kinds gathers what the tree
/// gives without that.
pub fn forward_loops_gather<K, N, B>()
    ensures { (make : K → ℕ → N) (kind : N → K) (end : N → ℕ) (at : K → List B)
        (passed : K → Bool)
        → ((k : K) (e : ℕ) → kind (make k e) ≡ k) → ((k : K) (e : ℕ) → end (make k e) ≡ e)
        → (n : ℕ) (t : Rose K) (rest : List N)
        → gather kind end at passed (n + size t) n n (flat make n t rest) ≡ gathered at passed t }
{}

/// A loop from the first node to the last that writes, with a stack of the open nodes, writes what is told of the tree.
pub fn writing_loops_tell<K, N, A>()
    ensures { (make : K → ℕ → N) (kind : N → K) (end : N → ℕ)
        (reads : ℕ → N → List N → Option (List A)) (is_list : K → Bool) (before : K → List A)
        (between : K → ℕ → List A) (after : K → List A) (comma : List A)
        → ((k : K) (e : ℕ) → kind (make k e) ≡ k) → ((k : K) (e : ℕ) → end (make k e) ≡ e)
        → (whole : K → Roses K → Option (List A))
        → ((n : ℕ) (k : K) (ts : Roses K) (rest : List N)
        → reads n (make k (n + suc (sizes ts))) (flats make (n + 1) ts rest) ≡ whole k ts)
        → (t : Rose K)
        → tell kind end reads is_list before between after comma 0 [] true 0 (flat make 0 t [])
        ≡ told whole is_list before between after comma true t }
{}
