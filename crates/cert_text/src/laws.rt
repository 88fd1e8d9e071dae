//! What is so of documents and their texts. The functions here do nothing: the contract of each is a law.

ghost use Rattle.std.specs.Prelude.{◌≡◌, ◌⊎◌, ℕ, List};
ghost use Rattle.cert_text.specs.Readable.{Contents, IsTextOf, IsFirstBadLine};

/// A text is that of at most one document that is read: two with one text are the same, number by number.
pub fn text_determines_contents()
    ensures one_document { (text : List ℕ) (a b : Contents) → IsTextOf text a → IsTextOf text b → a ≡ b }
{}

/// A text is that of a document that is read, or else it has one first bad line: one of the two, and not both.
///
/// No choice between the two is made here, so that one of them is so is said by refuting that neither is.
pub fn one_outcome()
    ensures some { (text : List ℕ) → ¬ (¬ (((d : Contents) × IsTextOf text d) ⊎ ((line : ℕ) × IsFirstBadLine text line))) }
    ensures apart { (text : List ℕ) (d : Contents) (line : ℕ) → IsTextOf text d → ¬ IsFirstBadLine text line }
    ensures line { (text : List ℕ) (a b : ℕ) → IsFirstBadLine text a → IsFirstBadLine text b → a ≡ b }
{}
