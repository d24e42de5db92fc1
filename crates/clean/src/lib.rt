// Whether one file is clean, judged alone; and the record that a question asks to see.
#![tactic(auto)]

ghost use Rattle.std.specs.Prelude.{◌≡◌, length};
ghost use Rattle.json_text.specs.Text.{syntax_of};
ghost use Rattle.walk.specs.Walk.{part};
ghost use Rattle.schema.specs.Tables.{table_at, sheet_shape};
ghost use Rattle.schema.specs.Pick.{pick};
ghost use Rattle.fault.specs.Fault.{least};
ghost use Rattle.fault.specs.Outcome.{outcome_of, unbroken};
ghost use Rattle.judge.specs.Faults.{file_faults};
ghost use Rattle.ids.specs.inner.Notes.{size};
ghost use Rattle.clean.specs.Clean.{tree_of, repeats, syntax_outcome, clean_in};
ghost use Rattle.clean.specs.Show.{answer, shown_of};
ghost use Rattle.clean.specs.inner.Judged.{judged};
ghost use Rattle.clean.specs.inner.Noted.{RecordsNoted};

use document::{Span, record_span, top_span};
use fault::Fault;
use fault::outcome::{Outcome, outcome_of, syntax_parts};
use ids::Notes;
use ids::id::id_field;
use json_text::check_syntax;
use judge::judge_file;
use repeats::{blame, note_file};
use schema::sheets::sheet_of;
use walk::cut;
use word::Word;
use word::refusal::Refusal;

pub mod repeats;

// Stage A of a file.
pub fn check_text(file: u8, s: &[u8]) -> Outcome
    ensures { result ≡ syntax_outcome file (syntax_of s.now) }
{
    match check_syntax(s) {
        Ok(()) => Ok(()),
        Err(e) => Err(syntax_parts(file, e.kind, e.offset as u32)),
    }
}

// The first fault of stage B in a file that stage A passes.
fn first_fault(sheet: u8, s: &[u8]) -> Option<Fault>
    requires { syntax_of s.now ≡ Ok tt }
    ensures { result ≡ least (file_faults (sheet_shape sheet) (tree_of s.now)) }
{
    let span = top_span(s)?;
    judge_file(cut(s, span.from, span.upto), sheet)
}

// Stage B of a file that stage A passes, by its sheet; its number stands in the word.
pub fn check_fields(sheet: u8, file: u8, s: &[u8]) -> Outcome
    requires { syntax_of s.now ≡ Ok tt }
    ensures { result ≡ outcome_of file (least (file_faults (sheet_shape sheet) (tree_of s.now))) }
{
    outcome_of(file, first_fault(sheet, s))
}

// Kind 12 of a file that stages A and B pass, whose records are noted; there is none where they have no ids.
fn check_ids(sheet: u8, file: u8, s: &[u8], notes: &mut [u32; Notes::SIZE]) -> Outcome
    requires { (syntax_of s.now ≡ Ok tt) × (least (file_faults (sheet_shape sheet) (tree_of s.now)) ≡ None) × (length notes.old ≡ size) }
    ensures { (result ≡ outcome_of file (least (repeats (sheet_shape sheet) (pick (sheet_shape sheet) (tree_of s.now))))) × RecordsNoted sheet s.now notes.new }
{
    if id_field(sheet) == 0 {
        return Ok(());
    }
    outcome_of(file, blame(sheet, note_file(sheet, s, notes)))
}

// A file that stage A passes.
fn judge_passed(sheet: u8, file: u8, s: &[u8], notes: &mut [u32; Notes::SIZE]) -> Outcome
    requires { (syntax_of s.now ≡ Ok tt) × (length notes.old ≡ size) }
    ensures { (result ≡ judged (sheet_shape sheet) file s.now (Ok tt)) × (result ≡ unbroken → RecordsNoted sheet s.now notes.new) }
{
    check_fields(sheet, file, s)?;
    check_ids(sheet, file, s, notes)
}

// Whether a file is clean, by its sheet, its number and its bytes; where nothing is there it is. Under a number that no sheet has stage A alone counts. Where it
// is clean, its records are left noted.
// Shut out: a repeated id named where stage B finds a fault; an absent file refused as no JSON text.
#[tactic(auto, using(crate::proofs::Refusals::absent))]
pub fn check_noted(sheet: u8, file: u8, s: &[u8], notes: &mut [u32; Notes::SIZE]) -> Outcome
    requires { length notes.old ≡ size }
    ensures { (result ≡ clean_in (sheet_shape sheet) file s.now) × (result ≡ unbroken → RecordsNoted sheet s.now notes.new) }
{
    if s.is_empty() {
        return Ok(());
    }
    check_text(file, s)?;
    judge_passed(sheet, file, s, notes)
}

// Whether a file is clean, where nobody asks for its records by their ids.
pub fn check_clean(sheet: u8, file: u8, s: &[u8]) -> Outcome
    ensures { result ≡ clean_in (sheet_shape sheet) file s.now }
{
    let mut notes: [u32; Notes::SIZE] = [0; Notes::SIZE];
    check_noted(sheet, file, s, &mut notes)
}

// By the table of a number, the record of a number, counted from 1, of a file, of which s are the bytes. Every number of a file or of a record may be asked for.
// Shut out: a record of a file that is not clean; file 257 taken for file 1.
#[tactic(auto, using(crate::proofs::Refusals::past_last))]
pub fn show_record(table: u8, file: u64, record: u64, s: &[u8]) -> Result<Span, Refusal>
    ensures { answer result ≡ shown_of (table_at table) file «record» s.now }
{
    if file == 0 || file > Word::FILES as u64 {
        return Err(Refusal::NoFile);
    }
    let f = file as u8;
    let sheet = sheet_of(table, f);
    // By a match: the wrong program that shows a refusal then differs in an answer alone.
    match check_clean(sheet, f, s) {
        Ok(()) => record_span(sheet, s, record as usize).ok_or(Refusal::NoRecord),
        Err(parts) => Err(Refusal::NotClean(parts)),
    }
}

// The bytes of an answer, a part of the caller's own: none on a refusal.
// Shut out: a part that is shown on a refusal; one that ends before its record does.
pub fn shown_part(s: &[u8], shown: Result<Span, Refusal>) -> &[u8]
    ensures { result.now ≡ part s.now (answer shown).from (answer shown).upto }
{
    match shown {
        Ok(span) => cut(s, span.from, span.upto),
        Err(_) => cut(s, 0, 0),
    }
}
