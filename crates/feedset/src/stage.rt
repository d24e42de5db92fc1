// Stage C of a set: file by file whether it is called for, which id repeats, and what its records demand.
ghost use Rattle.std.specs.Prelude.{true, not, ◌≡◌, ℕ, ◌≤◌};
ghost use Rattle.notation.specs.Choice.{◌and◌};
ghost use Rattle.word.specs.Kinds.{condition};
ghost use Rattle.schema.specs.Tables.{table_at, sheet_of};
ghost use Rattle.schema.specs.Records.{has_ids};
ghost use Rattle.fault.specs.Fault.{least, top, faulty};
ghost use Rattle.fault.specs.inner.Narrow.{Narrow};
ghost use Rattle.fault.specs.Outcome.{file_count};
ghost use Rattle.document.specs.inner.Spans.{RecordsFrom};
ghost use Rattle.ids.specs.inner.Ids.{AllIdsOnce};
ghost use Rattle.ids.specs.inner.Notes.{Indexed};
ghost use Rattle.ids.specs.References.{kind_if};
ghost use Rattle.ids.specs.inner.Known.{Searchable};
ghost use Rattle.cross.specs.Cross.{missing_file};
ghost use Rattle.cross.specs.Stage.{bytes_of, picked, contents};
ghost use Rattle.cross.specs.inner.Judged.{alone, files_by, Known, Referring};
ghost use Rattle.cross.specs.inner.Stage.{AllPassAB, first_c};
ghost use Rattle.cross.specs.inner.Recorded.{Recorded, repeat_of};
ghost use Rattle.feedset.specs.inner.Staged.{AllRecorded, AllSingle, Notable, Found, Ready, file_least, AllNarrow, file_outcome, set_outcome};

use crate::records::{Findings, judge_records};
use clean::repeats::blame;
use cross::set::{FILES, LENT, file_in, is_here, notes_in};
use cross::zones::judge_zones;
use document::records_from;
use fault::outcome::{Outcome, outcome_of};
use fault::{Fault, Place, lesser};
use ids::Notes;
use ids::note::note;
use schema::sheets::sheet_of;
use word::Word;
use word::kind::Kind;

// What is found of the records of each file that references name.
#[derive(Clone, Copy)]
pub struct Named {
    pub types: Findings,
    pub stations: Findings,
    pub plans: Findings,
    pub regions: Findings,
}

// Whether a file that is needed is lacking.
fn is_lacking(needed: bool, here: bool) -> bool
    ensures { result ≡ needed and not here }
{
    if needed {
        return !here;
    }
    false
}

// The file is called for, and it is not there.
// Shut out: a set accepted without the system's own file.
fn is_missing<'a>(file: u8, records: [&'a [u8]; FILES]) -> bool
    ensures { (table : ℕ) → result ≡ missing_file (files_by table (contents records.entry)) file }
{
    match file {
        2 => is_lacking(is_here(records, 3), is_here(records, 2)),
        3 => is_lacking(is_here(records, 2), is_here(records, 3)),
        4 => is_lacking(!is_here(records, 2), is_here(records, 4)),
        7 => !is_here(records, 7),
        _ => false,
    }
}

// The rule that a file breaks which is called for and not there; it stands in the header.
fn judge_presence<'a>(file: u8, records: [&'a [u8]; FILES]) -> Option<Fault>
    ensures { (table : ℕ) → result ≡ least (faulty top 0 (kind_if (missing_file (files_by table (contents records.entry)) file) condition)) }
{
    let header = Place { record: 0, sub: 0 };
    if is_missing(file, records) {
        return header.broken(0, Kind::CONDITION);
    }
    None
}

// One file of the set, by what is found of its records.
fn judge_file<'a>(table: u8, file: u8, found: Findings, records: [&'a [u8]; FILES]) -> Outcome
    requires { Found table (contents records) file found × Narrow (file_least table (contents records) file) }
    ensures { result ≡ file_outcome table (contents records.entry) file }
{
    let a = judge_presence(file, records);
    let b = blame(sheet_of(table, file), found.repeat);
    let c = found.least;
    outcome_of(file, lesser(a, lesser(b, c)))
}

// The records of file 5 or 8, which break no rule but by their ids.
fn note_records(table: u8, file: u8, p: &[u8], notes: &mut [u32; Notes::SIZE]) -> Findings
    requires { (has_ids (sheet_of table file) ≡ true) × Notable (sheet_of table file) p.now notes.old }
    ensures { (result.repeat ≡ repeat_of (sheet_of table file) p.now) × (result.least ≡ None) × Indexed (sheet_of table file) p.now notes.new }
{
    Findings {
        repeat: note(sheet_of(table, file), p, notes),
        least: None,
    }
}

// The records of file 1 or 2, which may name those of one other file: types name plans, and stations regions. So they are judged as they are noted, with the
// notes of that file alone.
fn judge_early<'a, 'n>(
    table: u8,
    file: u8,
    records: [&'a [u8]; FILES],
    noted: &mut [u32; Notes::SIZE],
    notes: &'n [u32; Notes::SIZE],
) -> Findings
    requires { Referring file × Notable (sheet_of table file) (bytes_of (contents records) file) noted.old × Known table file (contents records) (alone notes.now) }
    ensures { Found table (contents records.entry) file result × Searchable (sheet_of table file) (bytes_of (contents records.entry) file) noted.new }
{
    judge_records(
        table,
        file,
        file_in(records, file),
        noted,
        records,
        [notes, notes, notes],
    )
}

// The records of file 3 or 4, which no reference names: they are noted for their repeats alone.
fn judge_unnamed<'a, 'n>(
    table: u8,
    file: u8,
    records: [&'a [u8]; FILES],
    notes: [&'n [u32; Notes::SIZE]; LENT],
) -> Findings
    requires { Referring file × Recorded (bytes_of (contents records) file) × AllIdsOnce (sheet_of table file) (bytes_of (contents records) file) ×
        Known table file (contents records) (contents notes) }
    ensures { Found table (contents records.entry) file result }
{
    let mut noted: [u32; Notes::SIZE] = [0; Notes::SIZE];
    judge_records(
        table,
        file,
        file_in(records, file),
        &mut noted,
        records,
        notes,
    )
}

// The records of file 6, which have no ids.
fn judge_last<'a, 'n>(
    table: u8,
    records: [&'a [u8]; FILES],
    notes: [&'n [u32; Notes::SIZE]; LENT],
) -> Findings
    requires { Recorded (bytes_of (contents records) 6) × Known table 6 (contents records) (contents notes) }
    ensures { Found table (contents records.entry) 6 result }
{
    Findings {
        repeat: 0,
        least: judge_zones(
            table,
            file_in(records, 6),
            file_in(records, 1),
            notes_in(notes, 0),
        ),
    }
}

// What is found of the records of the file with this number.
fn find<'a, 'n>(
    table: u8,
    file: u8,
    named: Named,
    records: [&'a [u8]; FILES],
    notes: [&'n [u32; Notes::SIZE]; LENT],
) -> Findings
    requires { (1 ≤ file) × (file ≤ file_count) × Ready table (contents records) (contents notes) named }
    ensures { Found table (contents records.entry) file result }
{
    match file {
        1 => named.types,
        2 => named.stations,
        5 => named.plans,
        6 => judge_last(table, records, notes),
        7 => Findings {
            repeat: 0,
            least: None,
        },
        8 => named.regions,
        _ => judge_unnamed(table, file, records, notes),
    }
}

// The first file with a broken rule, where the records that references name are noted.
fn judge_noted<'a, 'n>(
    table: u8,
    named: Named,
    records: [&'a [u8]; FILES],
    notes: [&'n [u32; Notes::SIZE]; LENT],
) -> Outcome
    requires { Ready table (contents records) (contents notes) named }
    ensures { result ≡ set_outcome table (contents records.entry) }
{
    for file in 1..=Word::FILES {
        let found = find(table, file, named, records, notes);
        judge_file(table, file, found, records)?;
    }
    Ok(())
}

// The first file with a broken rule, where nothing is noted yet. Regions, which stations alone name, are noted where types are noted afterwards.
fn judge_parts<'a>(table: u8, records: [&'a [u8]; FILES]) -> Outcome
    requires { AllRecorded table (contents records) × AllSingle table (contents records) × AllNarrow table (contents records) }
    ensures { result ≡ set_outcome table (contents records.entry) }
{
    let mut type_notes: [u32; Notes::SIZE] = [0; Notes::SIZE];
    let mut station_notes: [u32; Notes::SIZE] = [0; Notes::SIZE];
    let mut plan_notes: [u32; Notes::SIZE] = [0; Notes::SIZE];
    let regions = note_records(table, 8, file_in(records, 8), &mut type_notes);
    let stations = judge_early(table, 2, records, &mut station_notes, &type_notes);
    let plans = note_records(table, 5, file_in(records, 5), &mut plan_notes);
    let types = judge_early(table, 1, records, &mut type_notes, &plan_notes);
    judge_noted(
        table,
        Named {
            types: types,
            stations: stations,
            plans: plans,
            regions: regions,
        },
        records,
        [&type_notes, &station_notes, &plan_notes],
    )
}

// The rest of a file from its records on.
fn records_in<'a>(table: u8, files: [&'a [u8]; FILES], file: u8) -> &'a [u8]
    requires { (1 ≤ file) × (file ≤ file_count) }
    ensures { RecordsFrom (sheet_of table file) (bytes_of (contents files.entry) file) result.now }
{
    records_from(sheet_of(table, file), file_in(files, file))
}

// Stage C of a set of files that are through stages A and B, by the table of a number.
// Shut out: a file passed over because a later one breaks a rule too; a rule of one file named in another.
pub fn judge_set<'a>(table: u8, files: [&'a [u8]; FILES]) -> Outcome
    requires { AllPassAB table (contents files) }
    ensures { result ≡ first_c (table_at table) (picked (table_at table) (contents files.entry)) }
{
    let records = [
        records_in(table, files, 1),
        records_in(table, files, 2),
        records_in(table, files, 3),
        records_in(table, files, 4),
        records_in(table, files, 5),
        records_in(table, files, 6),
        file_in(files, 7),
        records_in(table, files, 8),
    ];
    judge_parts(table, records)
}
