//! The laws of the texts of documents. The functions here do nothing: the contract of each is a law.

ghost use Rattle.std.specs.Prelude.{◌≡◌, ◌≢◌, ℕ, List};
ghost use Rattle.exact_texts.specs.FirstBadLine.{IsFirstBadLine};
ghost use Rattle.documents.specs.Documents.{Document};
ghost use Rattle.documents.specs.WellFormed.{IsWellFormed};
ghost use Rattle.documents.specs.declared.documents.Version.{Version};
ghost use Rattle.document_lines.specs.DocumentTexts.{document_text, document_lines};

/// The text of a well-formed document tells the document, and its version.
pub fn text_determines_document()
    ensures one_document { (v w : Version) (a b : Document) → IsWellFormed v a → IsWellFormed w b → document_text v a ≡ document_text w b
        → (v ≡ w) × (a ≡ b) }
{}

/// A text is that of a well-formed document or has a first bad line, which is one: it can't be both, and it can't be neither.
pub fn first_bad_line_of_documents()
    ensures one { (text : List ℕ) (i j : ℕ) → IsFirstBadLine document_lines text i → IsFirstBadLine document_lines text j → i ≡ j }
    ensures not_both { (v : Version) (d : Document) (at : ℕ) → IsWellFormed v d → ¬ IsFirstBadLine document_lines (document_text v d) at }
    ensures not_neither { (text : List ℕ) → ((v : Version) (d : Document) → IsWellFormed v d → text ≢ document_text v d)
        → ¬ ((at : ℕ) → ¬ IsFirstBadLine document_lines text at) }
{}
