// The judge: a value, a member, an object, each by the bytes from it on, in one pass: what it breaks first, and where it ends. `level` counts the
// objects that may still open, one inside another, and falls with each. The table is lent; a row's line is looked up once and handed down.
ghost use Rattle.std.specs.Prelude.{true, ◌≡◌, ℕ, ◌+◌, ◌≤◌, length, take};
ghost use Rattle.limits.specs.Ceilings.{file_bytes};
ghost use Rattle.json_text.specs.Tree.{Json};
ghost use Rattle.walk.specs.Part.{Whole};
ghost use Rattle.walk.specs.inner.Kind.{kind_at};
ghost use Rattle.walk.specs.inner.Front.{Ends};
ghost use Rattle.schema.specs.Pick.{pick};
ghost use Rattle.schema.specs.inner.Line.{bytes_of};
ghost use Rattle.schema.specs.Table23.{coordinates};
ghost use Rattle.schema.specs.Tables.{sheets};
ghost use Rattle.slots.specs.inner.Rows.{line_count};
ghost use Rattle.fault.specs.Fault.{least};
ghost use Rattle.judge.specs.Faults.{coordinate_faults};
ghost use Rattle.judge.specs.inner.Judged.{brackets_of, row_least, Single, Array, Member, RowsJudged, MembersJudged, Object};

use crate::row::Row;
use crate::{Judged, absent, excess, item};
use fault::{Fault, Place, lesser};
use lexeme::blank::skip_blanks;
use rings::Field;
use rings::zone::judge_coordinates;
use scalar::judge_scalar;
use schema::Line;
use schema::lines::line_at;
use slots::{Found, Slots, begins_blank, row_of};
use walk::skip::skip_value;
use walk::{ValueKind, closed_end, next_place, pass_name, value_kind};
use word::kind::Kind;

// The letter of an array or an object, by the kind of the value p; 0 of any other.
fn brackets(p: &[u8]) -> u8
    ensures { result ≡ brackets_of (kind_at p.now) }
{
    match value_kind(p) {
        ValueKind::Array => Line::ARRAY,
        ValueKind::Object => Line::OBJECT,
        _ => 0,
    }
}

// A value that is passed over, with what is known to be broken.
fn passed(p: &[u8], least: Option<Fault>) -> Judged
    ensures { Ends p.now result.end × (result.least ≡ least) }
{
    let end = skip_value(p, 0);
    Judged { least, end }
}

// The value of field 73: the first of its faults stands at a position's number.
fn judge_positions(p: &[u8], field: u8, place: Place) -> Judged
    requires { length p.now ≤ file_bytes }
    ensures { Ends p.now result.end ×
        ((x : Json) → Whole (take result.end p.now) x → result.least ≡ least (coordinate_faults place field (pick coordinates x))) }
{
    if brackets(p) != Line::ARRAY {
        return passed(p, place.broken(field, Kind::WRONG_TYPE));
    }
    let end = skip_value(p, 0);
    let owner = Field {
        record: place.record,
        field,
    };
    Judged {
        least: judge_coordinates(&p[..end], owner),
        end,
    }
}

// A value that is to be neither array nor object.
fn judge_plain(p: &[u8], letter: u8, row: Row, place: Place) -> Judged
    ensures { Ends p.now result.end ×
        ((level : ℕ) → (letter ≡ 0x7b → ⊥) → Single (take result.end p.now) letter row.i place level result.least) }
{
    let end = skip_value(p, 0);
    let kind = judge_scalar(&p[..end], letter, row.i);
    Judged {
        least: place.broken(row.line.field, kind),
        end,
    }
}

// A value that is no array, by its letter; its row tells the rest.
#[cycle(judge_array_judge_member_judge_members_judge_object_judge_single)]
fn judge_single(
    p: &[u8],
    table: &[u8; Line::TABLE_BYTES],
    letter: u8,
    row: Row,
    place: Place,
    level: u8,
) -> Judged
    requires { (length p.now ≤ file_bytes) × (table.now ≡ bytes_of sheets) }
    ensures { Ends p.now result.end × Single (take result.end p.now) letter row.i place level result.least }
{
    let line = row.line;
    if Line::COUNT <= row.i {
        return passed(p, None);
    }
    if letter == Line::OBJECT {
        return judge_object(
            p,
            table,
            row.i + 1,
            usize::from(line.inside),
            line.field,
            place,
            level,
        );
    }
    judge_plain(p, letter, row, place)
}

// The array of a row: all of its items, and how many they are.
#[cycle(judge_array_judge_member_judge_members_judge_object_judge_single)]
fn judge_array(
    p: &[u8],
    table: &[u8; Line::TABLE_BYTES],
    row: Row,
    place: Place,
    level: u8,
) -> Judged
    requires { (length p.now ≤ file_bytes) × (table.now ≡ bytes_of sheets) }
    ensures { Ends p.now result.end × Array (take result.end p.now) row.i place level result.least }
{
    let line = row.line;
    if line.numbering == Line::POSITIONS {
        return judge_positions(p, line.field, place);
    }
    if brackets(p) != Line::ARRAY {
        return passed(p, place.broken(line.field, Kind::WRONG_TYPE));
    }
    let mut least = None;
    let mut n: u32 = 0;
    let mut at: usize = 1;
    loop {
        let value = skip_blanks(p, at);
        let there = item(place, line.numbering, n + 1);
        let item = judge_single(&p[value..], table, line.item, row, there, level);
        if item.end == 0 {
            return Judged {
                least: lesser(excess(place, line, n), least),
                end: closed_end(p, at),
            };
        }
        n += 1;
        least = lesser(least, item.least);
        at = next_place(p, value + item.end);
    }
}

// The value of a row's member; it is passed over where its name is not new.
#[cycle(judge_array_judge_member_judge_members_judge_object_judge_single)]
fn judge_member(
    p: &[u8],
    table: &[u8; Line::TABLE_BYTES],
    new: bool,
    row: Row,
    place: Place,
    level: u8,
) -> Judged
    requires { (length p.now ≤ file_bytes) × (table.now ≡ bytes_of sheets) }
    ensures { Ends p.now result.end × (new ≡ true → Member (take result.end p.now) row.i place level result.least) }
{
    let line = row.line;
    if !new {
        return passed(p, None);
    }
    if begins_blank(p) {
        return Judged {
            least: absent(place, line),
            end: 2,
        };
    }
    if line.value == Line::ARRAY {
        return judge_array(p, table, row, place, level);
    }
    judge_single(p, table, line.value, row, place, level)
}

// A least is kept for each row of an object, and one for the names that no row has.
const KEPT: usize = Slots::ROWS + 1;

// What a row of an object breaks first, by what the object holds under its name, and by what the value breaks that was met first.
fn judge_row(found: Found, value: Option<Fault>, line: Line, place: Place) -> Option<Fault>
    ensures { result ≡ row_least found value line place }
{
    match found {
        Found::Missing => absent(place, line),
        Found::Once(_, _) => value,
        Found::Twice => place.broken(line.field, Kind::NAME_TWICE),
    }
}

// The rows of an object, `count` lines from `first` on, by the slots that its members filled.
fn judge_rows(
    table: &[u8; Line::TABLE_BYTES],
    slots: &Slots,
    leasts: &[Option<Fault>; KEPT],
    first: usize,
    count: usize,
    place: Place,
) -> Option<Fault>
    requires { (table.now ≡ bytes_of sheets) × (first + count ≤ line_count) }
    ensures { RowsJudged slots.now leasts.now first count place result }
{
    let mut least = None;
    let mut i = first;
    for row in 0..Slots::ROWS {
        if first + count <= i {
            return least;
        }
        let line = line_at(table, i);
        least = lesser(least, judge_row(slots.at(row), leasts[row], line, place));
        i += 1 + usize::from(line.inside);
    }
    least
}

// The members of an object, each judged where it is met, by the row that lists it; then the rows.
#[cycle(judge_array_judge_member_judge_members_judge_object_judge_single)]
fn judge_members(
    p: &[u8],
    table: &[u8; Line::TABLE_BYTES],
    first: usize,
    count: usize,
    place: Place,
    level: u8,
) -> Judged
    requires { (length p.now ≤ file_bytes) × (first + count ≤ line_count) × (brackets_of (kind_at p.now) ≡ 0x7b) × (table.now ≡ bytes_of sheets) }
    ensures { Ends p.now result.end × MembersJudged (take result.end p.now) first count place level result.least }
{
    let mut slots = Slots::new();
    let mut leasts: [Option<Fault>; KEPT] = [None; KEPT];
    let mut at: usize = 1;
    while let Some(m) = pass_name(p, at) {
        let found = row_of(table, &p[m.name..m.name_end], first, count);
        let i = found.line;
        let row = Row {
            i,
            line: line_at(table, i),
        };
        let new = slots.is_new(found.row);
        let judged = judge_member(&p[m.value..], table, new, row, place, level);
        let value_end = m.value + judged.end;
        slots.put(found.row, m.value, value_end);
        leasts[found.row] = judged.least;
        at = next_place(p, value_end);
    }
    Judged {
        least: judge_rows(table, &slots, &leasts, first, count, place),
        end: closed_end(p, at),
    }
}

// An object whose rows are `count` lines from `first` on; `field` holds it.
#[cycle(judge_array_judge_member_judge_members_judge_object_judge_single)]
pub fn judge_object(
    p: &[u8],
    table: &[u8; Line::TABLE_BYTES],
    first: usize,
    count: usize,
    field: u8,
    place: Place,
    level: u8,
) -> Judged
    requires { (length p.now ≤ file_bytes) × (table.now ≡ bytes_of sheets) }
    ensures { Ends p.now result.end × Object (take result.end p.now) first count field place level result.least }
{
    if level == 0 || Line::COUNT < first || Line::COUNT - first < count {
        return passed(p, None);
    }
    if brackets(p) != Line::OBJECT {
        return passed(p, place.broken(field, Kind::WRONG_TYPE));
    }
    judge_members(p, table, first, count, place, level - 1)
}
