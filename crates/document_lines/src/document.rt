//! The lines of a document.

ghost use Rattle.std.specs.Prelude.{◌≡◌, ◌++◌, OnOk, string_bytes};
ghost use Rattle.documents.specs.Documents.{Document};
ghost use Rattle.documents.specs.WellFormed.{IsSubject, IsWellFormed};
ghost use Rattle.documents.specs.Views.{subject_said, document_of};
ghost use Rattle.documents.specs.declared.documents.Version.{Version as VersionValue};
ghost use Rattle.document_lines.specs.DocumentTexts.{subject_text, document_text, document_lines};
ghost use Rattle.document_lines.specs.DocumentLaws.{document_line_texts};

use crate::claim_lists::{read_claims_of, write_claims};
use crate::commands::{Commands, Versions};
use crate::worded_line::WordedLine;
use crate::words::LineWord;
use documents::{Doc, Subject, Version};
use poly_generic::Zn;
use polynomial_lines::{POLYNOMIALS_IN_N, Polynomials};
use spelled::{LineFault, LineSpelling, Lines, Nothing, Parts};
use std::alloc::{AllocError, Global};
use term_lines::Terms;

const VERSION: WordedLine<LineWord, Versions> = WordedLine {
    word: LineWord::Version,
    each: Versions,
};

const COMMAND: WordedLine<LineWord, Commands> = WordedLine {
    word: LineWord::Command,
    each: Commands,
};

const RECURRENCE: WordedLine<LineWord, Parts<Polynomials<Zn>>> = WordedLine {
    word: LineWord::Recurrence,
    each: Parts {
        each: POLYNOMIALS_IN_N,
    },
};

const END: WordedLine<LineWord, Nothing> = WordedLine {
    word: LineWord::End,
    each: Nothing,
};

// Writes the line of a subject.
fn write_subject(text: &mut String, version: Version, subject: &Subject) -> Result<(), AllocError>
    requires { IsSubject (subject_said subject.now) }
    ensures { OnOk result (string_bytes text.new ≡ string_bytes text.old ++ subject_text version (subject_said subject.now)) }
{
    match subject {
        Subject::Term(term) => {
            let line = WordedLine {
                word: LineWord::Term,
                each: Terms { version },
            };
            line.write_lines(term, text)
        }
        Subject::Recurrence(polynomials) => RECURRENCE.write_lines(polynomials, text),
    }
}

// Writes the lines of a document in a version.
pub(crate) fn write_document(
    text: &mut String,
    version: Version,
    document: &Doc,
) -> Result<(), AllocError>
    requires { IsWellFormed version (document_of document.now) }
    ensures { OnOk result (string_bytes text.new ≡ string_bytes text.old ++ document_text version (document_of document.now)) }
{
    VERSION.write_lines(&version, text)?;
    COMMAND.write_lines(&document.command, text)?;
    write_subject(text, version, &document.subject)?;
    write_claims(text, version, &document.claims)?;
    END.write_lines(&(), text)
}

/// The lines of well-formed documents of gosper, ct and zeil, each with its version.
#[derive(Clone, Copy)]
pub struct Documents;

impl LineSpelling for Documents {
    type Item = (Version, Doc);

    ghost Value = { VersionValue × Document };

    ghost value_of = { λ p. (p.0, document_of p.1) };

    ghost format = { λ _. document_lines };

    fn write_lines(&self, item: &(Version, Doc), text: &mut String) -> Result<(), AllocError> {
        write_document(text, item.0, &item.1)
    }

    fn read_lines(
        &self,
        alloc: Global,
        lines: &mut Lines<'_>,
    ) -> Result<(Version, Doc), LineFault> {
        let version = VERSION.read_lines(alloc, lines)?;
        let command = COMMAND.read_lines(alloc, lines)?;
        let term_line = WordedLine {
            word: LineWord::Term,
            each: Terms { version },
        };
        let term = term_line.read_lines(alloc, lines)?;
        let claims = read_claims_of(alloc, lines, version, command)?;
        let () = END.read_lines(alloc, lines)?;
        let document = Doc {
            command,
            subject: Subject::Term(term),
            claims,
        };
        Ok((version, document))
    }

    ghost line_texts = { λ _. document_line_texts };
}
