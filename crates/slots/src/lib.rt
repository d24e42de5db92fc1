// The members of an object that its rows list: one pass over its bytes fills a slot for each row.
#![tactic(auto)]

ghost use Rattle.std.specs.Prelude.{◌≡◌, ◌+◌, min};
ghost use Rattle.json_text.specs.Tree.{Json};
ghost use Rattle.text.specs.Text.{text_of};
ghost use Rattle.walk.specs.Part.{Whole};
ghost use Rattle.schema.specs.inner.Line.{bytes_of};
ghost use Rattle.schema.specs.Tables.{sheets};
ghost use Rattle.slots.specs.inner.Rows.{line_count, RowOf};
ghost use Rattle.slots.specs.Found.{one_more};
ghost use Rattle.slots.specs.inner.Slots.{empty, slot_at, new_at, put_in, Gathered};
ghost use Rattle.slots.specs.inner.Blank.{blank_text, BeginsBlank};

use lexeme::front::first;
use schema::Line;
use schema::lines::{inside_at, table_bytes};
use schema::names::{has_name, name_number};
use walk::pass_member;

// What an object holds under a name: nothing, a value from one place up to another, or more than one.
#[derive(Clone, Copy, Debug, PartialEq, Eq)]
pub enum Found {
    Missing,
    Once(usize, usize),
    Twice,
}

impl Found {
    // What is held with one value more, from one place up to another.
    // Shut out: a second value of one name that goes unseen.
    pub fn one_more(self, from: usize, upto: usize) -> Found
        ensures { result ≡ one_more self from upto }
    {
        match self {
            Found::Missing => Found::Once(from, upto),
            Found::Once(_, _) => Found::Twice,
            Found::Twice => Found::Twice,
        }
    }
}

// A slot for each row of an object, in the rows' order: what the object holds under the row's name.
#[derive(Clone, Copy, Debug, PartialEq, Eq)]
pub struct Slots {
    rows: [Found; Slots::ROWS],
}

impl Slots {
    // How many rows have a slot.
    pub const ROWS: usize = 16;

    // Slots with nothing in them.
    pub fn new() -> Slots
        ensures { result ≡ empty }
    {
        Slots {
            rows: [Found::Missing; Slots::ROWS],
        }
    }

    // What the object holds under the name of a row.
    pub fn at(&self, row: usize) -> Found
        ensures { result ≡ slot_at self.now row }
    {
        if row < Slots::ROWS {
            self.rows[row]
        } else {
            Found::Missing
        }
    }

    // A row's name is met for the first time; those of no row are never new.
    pub fn is_new(&self, row: usize) -> bool
        ensures { result ≡ new_at self.now row }
    {
        row < Slots::ROWS && matches!(self.rows[row], Found::Missing)
    }

    // One value more for a row, from one place up to another.
    pub fn put(&mut self, row: usize, from: usize, upto: usize)
        ensures { self.new ≡ put_in self.old row from upto }
    {
        if row < Slots::ROWS {
            self.rows[row] = self.rows[row].one_more(from, upto);
        }
    }
}

// Where `count` lines from `first` on end: with the table's last line at the latest.
fn lines_end(first: usize, count: usize) -> usize
    ensures { result ≡ min line_count (first + count) }
{
    first.saturating_add(count).min(Line::COUNT)
}

// A row of an object: its number, and its line in the table.
#[derive(Clone, Copy, Debug, PartialEq, Eq)]
pub struct Row {
    pub row: usize,
    pub line: usize,
}

// The row that has the name that is spelled, among the rows at these lines of the table that is lent; number `Slots::ROWS` where none has it.
pub fn row_of(table: &[u8; Line::TABLE_BYTES], spelled: &[u8], first: usize, count: usize) -> Row
    requires { table.now ≡ bytes_of sheets }
    ensures { RowOf (text_of spelled.now) first count result }
{
    let number = name_number(table, spelled);
    if number < 1 {
        return Row {
            row: Slots::ROWS,
            line: first,
        };
    }
    let end = lines_end(first, count);
    let mut i = first;
    for row in 0..Slots::ROWS {
        if end <= i {
            break;
        }
        if has_name(table, i, number) {
            return Row { row, line: i };
        }
        i = i + 1 + usize::from(inside_at(table, i));
    }
    Row {
        row: Slots::ROWS,
        line: i,
    }
}

// The slots of the object `p`, for the rows at these lines of the table.
pub fn gather(p: &[u8], first: usize, count: usize) -> Slots
    ensures { Gathered p.now first count result }
{
    let table = table_bytes();
    let mut slots = Slots::new();
    let mut at: usize = 1;
    while let Some(m) = pass_member(p, at) {
        let row = row_of(&table, &p[m.name..m.name_end], first, count);
        slots.put(row.row, m.value, m.value_end);
        at = m.next;
    }
    slots
}

// The value at the front of `p` is the text with nothing in it.
pub fn begins_blank(p: &[u8]) -> bool
    ensures { BeginsBlank p.now result }
{
    first(p, 0) == b'"' && first(p, 1) == b'"'
}

// How many bytes the text with nothing in it has: its two quotation marks.
const BLANK_BYTES: usize = 2;

// The value `p` is the text with nothing in it: two quotation marks.
// Shut out: a member that holds "" taken as there.
pub fn is_blank_text(p: &[u8]) -> bool
    ensures { (x : Json) → Whole p.now x → result ≡ blank_text x }
{
    p.len() == BLANK_BYTES && p[0] == b'"'
}
