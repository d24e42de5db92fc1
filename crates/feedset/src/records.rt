// The records of files 1 to 4, which have ids and refer to other records: noted and judged in one walk.
ghost use Rattle.std.specs.Prelude.{◌≡◌, ◌≤◌, length};
ghost use Rattle.limits.specs.Ceilings.{file_bytes};
ghost use Rattle.schema.specs.Tables.{sheets, sheet_of};
ghost use Rattle.schema.specs.inner.RecordLines.{record_lines};
ghost use Rattle.ids.specs.inner.Known.{Searchable};
ghost use Rattle.cross.specs.Cross.{faults_of};
ghost use Rattle.cross.specs.inner.Judged.{Object, files_by, Known, Referring, Judges};
ghost use Rattle.feedset.specs.inner.Staged.{Notable, Finds};
ghost use Rattle.cross.specs.Stage.{contents};

use cross::bikes::judge_bike;
use cross::set::{FILES, LENT};
use cross::stations::judge_station;
use cross::statuses::judge_status;
use cross::types::judge_type;
use fault::{Fault, lesser};
use ids::Notes;
use ids::note::note_record;
use ids::order::order_notes;
use schema::Range;
use schema::lines::record_lines;
use schema::sheets::sheet_of;
use slots::gather;
use walk::pass_item;

// What is found of a file's records: the number of the first whose id one before it has, or 0, and the first rule that one breaks otherwise.
#[derive(Clone, Copy)]
pub struct Findings {
    pub repeat: u16,
    pub least: Option<Fault>,
}

// The n-th record `p` of a file by its slots, for the rows at the lines of the file's records.
fn judge_record<'a, 'n>(
    table: u8,
    file: u8,
    lines: Range,
    p: &[u8],
    n: u32,
    records: [&'a [u8]; FILES],
    notes: [&'n [u32; Notes::SIZE]; LENT],
) -> Option<Fault>
    requires { Referring file × (lines ≡ record_lines sheets (sheet_of table file)) × Known table file (contents records) (contents notes) ×
        (length p.now ≤ file_bytes) × Object p.now }
    ensures { Judges (sheet_of table file) (faults_of (files_by table (contents records.entry)) file n) p.now result }
{
    let slots = gather(p, lines.first, lines.count);
    match file {
        1 => judge_type(table, p, &slots, n, records, notes),
        2 => judge_station(table, p, &slots, n, records, notes),
        3 => judge_status(table, p, &slots, n, records, notes),
        _ => judge_bike(table, p, &slots, n, records, notes),
    }
}

// All records of the array `p`, numbered from 1, noted and judged.
// Shut out: the first broken rule in the order of the bytes; one that stops at a record which breaks nothing; a record left out of the notes because it
// breaks a rule.
pub fn judge_records<'a, 'n>(
    table: u8,
    file: u8,
    p: &[u8],
    noted: &mut [u32; Notes::SIZE],
    records: [&'a [u8]; FILES],
    notes: [&'n [u32; Notes::SIZE]; LENT],
) -> Findings
    requires { Referring file × Notable (sheet_of table file) p.now noted.old × Known table file (contents records) (contents notes) }
    ensures { Finds table (contents records.entry) file p.now result × Searchable (sheet_of table file) p.now noted.new }
{
    let sheet = sheet_of(table, file);
    let lines = record_lines(sheet);
    let mut least = None;
    let mut n: usize = 0;
    let mut at: usize = 1;
    while let Some(item) = pass_item(p, at) {
        let q = &p[item.value..item.value_end];
        note_record(sheet, p, item, n, noted);
        n += 1;
        let broken = judge_record(table, file, lines, q, n as u32, records, notes);
        least = lesser(least, broken);
        at = item.next;
    }
    let repeat = order_notes(p, n, noted);
    Findings { repeat, least }
}
