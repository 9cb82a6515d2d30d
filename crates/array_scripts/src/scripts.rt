//! Scripts of threads: a header, the operations of each thread, and an end. Their lines may be of
//! any language; the first line that is not allowed at its place is told apart once, for all.

ghost use Rattle.std.specs.Prelude.{◌≡◌, ◌⊎◌, ℕ, Bool, Some, List, IsTrue};
ghost use Rattle.array_scripts.specs.scripts.Scripts.{Language, Start, IsScript, Reads, bad_line};

/// Lines are a script, or one of them is the first that may not come at its place, and never both;
/// and they are one script at most. So it is in each language of which the readers of a header and
/// of a line read what may come and nothing else, whatever its lines, headers and operations are:
/// they are numbers here, and of any type in the lemmas.
pub fn lines_are_told_apart()
    ensures either { (lang : Language ℕ ℕ ℕ ℕ) (is_header : ℕ → Bool) (fits : ℕ → ℕ → ℕ → Bool)
        (lines : List ℕ) → Reads lang (λ h. IsTrue (is_header h)) (λ h s op. IsTrue (fits h s op))
        → ((h : ℕ) × (scripts : List (List ℕ)) × IsScript lang (λ h. IsTrue (is_header h))
        (λ h s op. IsTrue (fits h s op)) lines h scripts)
        ⊎ ((n : ℕ) × (bad_line lang Start 1 lines ≡ Some n)) }
    ensures apart { (lang : Language ℕ ℕ ℕ ℕ) (is_header : ℕ → Bool) (fits : ℕ → ℕ → ℕ → Bool)
        (lines : List ℕ) (h : ℕ) (scripts : List (List ℕ)) (n : ℕ)
        → Reads lang (λ h. IsTrue (is_header h)) (λ h s op. IsTrue (fits h s op))
        → IsScript lang (λ h. IsTrue (is_header h)) (λ h s op. IsTrue (fits h s op)) lines h scripts
        → bad_line lang Start 1 lines ≡ Some n → ⊥ }
    ensures one { (lang : Language ℕ ℕ ℕ ℕ) (is_header : ℕ → Bool) (fits : ℕ → ℕ → ℕ → Bool)
        (lines : List ℕ) (h k : ℕ) (scripts others : List (List ℕ))
        → Reads lang (λ h. IsTrue (is_header h)) (λ h s op. IsTrue (fits h s op))
        → IsScript lang (λ h. IsTrue (is_header h)) (λ h s op. IsTrue (fits h s op)) lines h scripts
        → IsScript lang (λ h. IsTrue (is_header h)) (λ h s op. IsTrue (fits h s op)) lines k others
        → (h ≡ k) × (scripts ≡ others) }
{}
