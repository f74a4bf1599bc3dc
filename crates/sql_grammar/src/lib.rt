//! The grammar of SELECT statements in the four dialects, and laws on it. `docs/GRAMMAR.md` has it in words.
//!
//! The functions here do nothing when they run: each carries laws about the definitions in `specs/`.
//!
//! A page whose offset is written first is a node of its own (`FetchBy`, beside `PageBy`), since on Bracket the offset's value comes before
//! the limit's. With one node for both orders, each function that numbers or fills the values of a tree would need the dialect.
//!
//! The kinds of trees are those of the productions. For most of them the law of one reading follows from that of queries, by a query around
//! the part.
#![tactic(auto)]

ghost use Rattle.std.specs.Prelude.{◌≡◌, ◌+◌, ◌<◌, [], ◌∷◌, ◌++◌, ℕ, List, Some, None, IsTrue, IsFalse, length, codes};
ghost use Rattle.sql_dialect.specs.Quote.{doubled};
ghost use Rattle.sql_dialect.specs.Written.{quoted, placeholder, numbers};
ghost use Rattle.sql_dialect.specs.declared.backend.Dialect.{Dialect};
ghost use Rattle.sql_dialect.specs.declared.backend.Dialect.TheVariants.{Pg, Mysql, Sqlite, Bracket};
ghost use Rattle.sql_grammar.specs.Token.{Token, Keyword, SELECT, Comparison, Equal, LessOrEqual, Quoted, Word, Unknown, Number, Mark, Sign, Open, Close, Comma, Dot, Star, Minus};
ghost use Rattle.sql_grammar.specs.Spelling.{is_letter, all_letters, word_of, spelling, is_digit, all_digits, value_of, is_placeholder_number, is_equal, is_p, quote, end_quote, sign_text};
ghost use Rattle.sql_grammar.specs.Tokens.{tokens, in_front, begun, NotAt, NoQuoteAt, IsLongest, Breaks};
ghost use Rattle.sql_grammar.specs.Tree as tree;
ghost use Rattle.sql_grammar.specs.Numbering.{mark_of, numbered, Fills};
ghost use Rattle.sql_grammar.specs.Values.{values_query};
ghost use Rattle.sql_grammar.specs.MarkTree.{Expression, Query, Source};
ghost use Rattle.sql_grammar.specs.Grammar.{Reads, ReadsExpression, ReadsSource};
ghost use Rattle.sql_grammar.specs.Kinds.{Kind, TreeOf, ReadsAs};
ghost use Rattle.sql_grammar.specs.Fits.{FitsQuery};
ghost use Rattle.sql_grammar.specs.Text.{text, mark};
ghost use Rattle.sql_grammar.specs.Reading.{IsReading, OnlyReading};
ghost use Rattle.sql_grammar.specs.Examples.{pg_text, pg_query, mysql_text, mysql_query, sqlite_text, sqlite_query, bracket_text, bracket_query};

/// Nothing has two readings in a dialect: no list of tokens as a tree of any kind, and no text. Whoever takes a text apart by
/// the grammar finds the one tree that there is, and in each part of it the one tree of that part.
pub fn one_reading()
    ensures trees { (d : Dialect) (k : Kind) (ts : List Token) (a b : TreeOf k) →
        ReadsAs d k ts a → ReadsAs d k ts b → a ≡ b }
    ensures queries { (d : Dialect) (ts : List Token) (a b : Query) →
        Reads d ts a → Reads d ts b → a ≡ b }
    ensures expressions { (d : Dialect) (ts : List Token) (a b : Expression) →
        ReadsExpression d ts a → ReadsExpression d ts b → a ≡ b }
    ensures sources { (d : Dialect) (ts : List Token) (a b : Source) →
        ReadsSource d ts a → ReadsSource d ts b → a ≡ b }
    ensures texts { (d : Dialect) (text : List ℕ) (a b : Query) →
        IsReading d text a → IsReading d text b → a ≡ b }
{}

/// A name in quotes is one token with that very name, whatever bytes it has and whatever follows that is no quote: no name
/// reaches into the statement around it.
pub fn quoted_name()
    ensures { (d : Dialect) (name rest : List ℕ) → NoQuoteAt d rest →
        tokens d (quoted d name ++ rest) ≡ in_front (Quoted name) (tokens d rest) }
{}

/// The rule of tokens, kind by kind: what a text has before the tokens of its rest.
pub fn token_rules()
    // Spaces separate, and are no token.
    ensures space { (d : Dialect) (rest : List ℕ) → tokens d (codes " " ++ rest) ≡ tokens d rest }

    // A longest run of letters is one word. The keywords are the words that are spelled like them.
    ensures word { (d : Dialect) (letters rest : List ℕ) →
        0 < length letters → IsTrue (all_letters letters) → NotAt is_letter rest →
        tokens d (letters ++ rest) ≡ in_front (word_of letters) (tokens d rest) }
    ensures keyword { (k : Keyword) → word_of (spelling k) ≡ Word k }

    // A longest run of digits is one number.
    ensures number { (d : Dialect) (digits rest : List ℕ) →
        0 < length digits → IsTrue (all_digits digits) → NotAt is_digit rest →
        tokens d (digits ++ rest) ≡ in_front (Number digits) (tokens d rest) }

    // On Pg `$` stands before a number from 1 to 4294967295 without leading zeros, or the text has no tokens.
    ensures numbered { (digits rest : List ℕ) →
        0 < length digits → IsTrue (all_digits digits) → NotAt is_digit rest →
        IsTrue (is_placeholder_number digits) →
        tokens Pg (codes "$" ++ (digits ++ rest))
        ≡ in_front (Mark (Some (value_of digits))) (tokens Pg rest) }
    ensures misnumbered { (digits rest : List ℕ) →
        0 < length digits → IsTrue (all_digits digits) → NotAt is_digit rest →
        IsFalse (is_placeholder_number digits) →
        tokens Pg (codes "$" ++ (digits ++ rest)) ≡ None }

    // On Bracket the same holds after `@p`.
    ensures at_numbered { (digits rest : List ℕ) →
        0 < length digits → IsTrue (all_digits digits) → NotAt is_digit rest →
        IsTrue (is_placeholder_number digits) →
        tokens Bracket (codes "@p" ++ (digits ++ rest))
        ≡ in_front (Mark (Some (value_of digits))) (tokens Bracket rest) }
    ensures at_misnumbered { (digits rest : List ℕ) →
        0 < length digits → IsTrue (all_digits digits) → NotAt is_digit rest →
        IsFalse (is_placeholder_number digits) →
        tokens Bracket (codes "@p" ++ (digits ++ rest)) ≡ None }

    // Where placeholders have no number they are `?`.
    ensures unnumbered { (d : Dialect) (rest : List ℕ) → IsFalse (numbers d) →
        tokens d (codes "?" ++ rest) ≡ in_front (Mark None) (tokens d rest) }

    // Comparisons, each the longest that stands there.
    ensures comparison { (d : Dialect) (by : Comparison) (rest : List ℕ) → IsLongest by rest →
        tokens d (sign_text by rest) ≡ in_front (Sign by) (tokens d rest) }

    // The other signs are one byte each.
    ensures opening_bracket { (d : Dialect) (rest : List ℕ) →
        tokens d (codes "(" ++ rest) ≡ in_front Open (tokens d rest) }
    ensures closing_bracket { (d : Dialect) (rest : List ℕ) →
        tokens d (codes ")" ++ rest) ≡ in_front Close (tokens d rest) }
    ensures comma { (d : Dialect) (rest : List ℕ) →
        tokens d (codes "," ++ rest) ≡ in_front Comma (tokens d rest) }
    ensures dot { (d : Dialect) (rest : List ℕ) →
        tokens d (codes "." ++ rest) ≡ in_front Dot (tokens d rest) }
    ensures star { (d : Dialect) (rest : List ℕ) →
        tokens d (codes "*" ++ rest) ≡ in_front Star (tokens d rest) }
    ensures minus { (d : Dialect) (rest : List ℕ) →
        tokens d (codes "-" ++ rest) ≡ in_front Minus (tokens d rest) }

    // At its end a text has no more tokens. All else has none: a quote that isn't closed, `!` without `=`, `$` or `@p` without
    // a number, and a byte that begins no token.
    ensures end { (d : Dialect) → tokens d [] ≡ Some [] }
    ensures unclosed { (d : Dialect) (name : List ℕ) →
        tokens d (quote d ∷ doubled (end_quote d) name) ≡ None }
    ensures exclamation { (d : Dialect) (rest : List ℕ) → NotAt is_equal rest →
        tokens d (codes "!" ++ rest) ≡ None }
    ensures dollar { (rest : List ℕ) → NotAt is_digit rest → tokens Pg (codes "$" ++ rest) ≡ None }
    ensures at_p { (rest : List ℕ) → NotAt is_digit rest →
        tokens Bracket (codes "@p" ++ rest) ≡ None }
    ensures at { (rest : List ℕ) → NotAt is_p rest → tokens Bracket (codes "@" ++ rest) ≡ None }
    ensures other { (d : Dialect) (byte : ℕ) (rest : List ℕ) → begun d byte ≡ None →
        tokens d (byte ∷ rest) ≡ None }
{}

/// Two texts that are joined have the tokens of both, one after the other, where the second begins with a byte that goes on
/// with no token before it, as a space, a bracket, a comma or a dot.
pub fn joined_texts()
    ensures { (d : Dialect) (a : List ℕ) (c : ℕ) (b : List ℕ) (xs ys : List Token) → Breaks c →
        tokens d a ≡ Some xs → tokens d (c ∷ b) ≡ Some ys
        → tokens d (a ++ c ∷ b) ≡ Some (xs ++ ys) }
{}

/// Proves that the text that the program writes for a tree that the dialect has is read as that tree, and as no other. The
/// placeholder of a value is written in it as a builder of the dialect writes it.
pub fn written()
    ensures tree { (d : Dialect) (q : Query) → FitsQuery d q → OnlyReading d (text d q) q }
    ensures place { (d : Dialect) (before : ℕ) (rest : List ℕ) →
        mark d (mark_of d before) rest ≡ placeholder d (before + 1) ++ rest }
{}

/// A tree of values, of any type: with a numbered placeholder for each value it has as many placeholders as there were
/// values, and filling the k-th placeholder with the k-th value gives the tree back.
pub fn filled_by_values<V>()
    ensures fills { (d : Dialect) (t : tree.Query V) → Fills (numbered d t) (values_query t) t }
    ensures as_many { (d : Dialect) (t : tree.Query V) →
        length (values_query (numbered d t)) ≡ length (values_query t) }
{}

/// The tokens of some texts, computed.
pub fn worked_tokens()
    ensures spaces { tokens Pg (codes "SELECT   ( \"a\".\"x\"=$7 )") ≡
        Some
        (Word SELECT ∷ Open ∷ Quoted (codes "a") ∷ Dot ∷ Quoted (codes "x") ∷ Sign Equal
        ∷ Mark (Some 7) ∷ Close ∷ []) }

    // Each quote inside a name is doubled. Another dialect's quote is a byte of the name.
    ensures doubled { tokens Pg (codes "\"a\"\"b`\"") ≡ Some (Quoted (codes "a\"b`") ∷ []) }
    ensures backticks { tokens Sqlite (codes "`a``b\"`.`c`") ≡
        Some (Quoted (codes "a`b\"") ∷ Dot ∷ Quoted (codes "c") ∷ []) }
    ensures lone_quote { tokens Pg (codes "\"") ≡ None }
    ensures lone_backtick { tokens Mysql (codes "SELECT `a``") ≡ None }

    ensures square { tokens Bracket (codes "[a]]b[].[c]") ≡
        Some (Quoted (codes "a]b[") ∷ Dot ∷ Quoted (codes "c") ∷ []) }
    ensures lone_square { tokens Bracket (codes "[a]]") ≡ None }

    // Words are spelled in capital letters, digits are kept, and of two signs the longer one is taken.
    ensures lower { tokens Pg (codes "select") ≡ Some (Unknown (codes "select") ∷ []) }
    ensures digits { tokens Mysql (codes "x007<=1") ≡
        Some
        (Unknown (codes "x") ∷ Number (codes "007") ∷ Sign LessOrEqual ∷ Number (codes "1")
        ∷ []) }

    // Placeholders have a number from 1 to 4294967295 on Pg and Bracket, and none elsewhere.
    ensures last { tokens Pg (codes "$4294967295") ≡ Some (Mark (Some 4294967295) ∷ []) }
    ensures past { tokens Pg (codes "$4294967296") ≡ None }
    ensures zero { tokens Pg (codes "$0") ≡ None }
    ensures leading_zero { tokens Pg (codes "SELECT $01") ≡ None }
    ensures last_on_bracket { tokens Bracket (codes "@p4294967295") ≡
        Some (Mark (Some 4294967295) ∷ []) }
    ensures past_on_bracket { tokens Bracket (codes "@p4294967296") ≡ None }
    ensures leading_zero_on_bracket { tokens Bracket (codes "SELECT @p01") ≡ None }
    ensures spaced_number { tokens Bracket (codes "@p 1") ≡ None }
    ensures question { tokens Sqlite (codes "(?)") ≡ Some (Open ∷ Mark None ∷ Close ∷ []) }
    ensures question_on_pg { tokens Pg (codes "?") ≡ None }
    ensures number_on_mysql { tokens Mysql (codes "$1") ≡ None }
    ensures number_on_sqlite { tokens Sqlite (codes "$1") ≡ None }

    // A tab or a newline stands in a name alone.
    ensures tab { tokens Pg (codes "SELECT\t1") ≡ None }
    ensures newline { tokens Pg (codes "SELECT\n1") ≡ None }
    ensures tab_in_name { tokens Pg (codes "\"\t\"") ≡ Some (Quoted (codes "\t") ∷ []) }
{}

/// Four whole statements, one in each dialect, with their only readings.
pub fn worked_readings()
    ensures pg { OnlyReading Pg pg_text pg_query }
    ensures mysql { OnlyReading Mysql mysql_text mysql_query }
    ensures sqlite { OnlyReading Sqlite sqlite_text sqlite_query }
    ensures bracket { OnlyReading Bracket bracket_text bracket_query }
{}

/// Texts that have no reading: a form that the dialect lacks, a condition without its brackets, a value in the text.
pub fn no_reading()
    ensures lock_on_sqlite { (q : Query) → IsReading Sqlite (codes "SELECT ? FOR UPDATE") q → ⊥ }
    ensures intersect_all_on_bracket { (q : Query) →
        IsReading Bracket (codes "(SELECT @p1) INTERSECT ALL (SELECT @p2)") q → ⊥ }
    ensures limit_on_bracket { (q : Query) → IsReading Bracket (codes "SELECT @p1 LIMIT @p2") q → ⊥ }
    ensures bare_condition { (q : Query) → IsReading Pg (codes "SELECT $1 WHERE $2=$3") q → ⊥ }
    ensures number_as_value { (q : Query) → IsReading Pg (codes "SELECT 1") q → ⊥ }
    ensures text_as_value { (q : Query) → IsReading Pg (codes "SELECT 'a'") q → ⊥ }
{}
