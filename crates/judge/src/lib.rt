// Stage B of one file: its first broken rule, by the field table.
#![tactic(auto)]

ghost use Rattle.std.specs.Prelude.{◌≡◌, ◌≤◌, leb, length};
ghost use Rattle.limits.specs.Ceilings.{file_bytes};
ghost use Rattle.json_text.specs.Tree.{Json};
ghost use Rattle.walk.specs.Part.{Whole};
ghost use Rattle.schema.specs.Tables.{sheet_shape};
ghost use Rattle.word.specs.Kinds.{too_many};
ghost use Rattle.fault.specs.Fault.{least, faulty};
ghost use Rattle.scalar.specs.Scalars.{unless};
ghost use Rattle.judge.specs.Faults.{file_faults};
ghost use Rattle.judge.specs.inner.Judged.{absence_of, item_place_of};

use crate::part::judge_object;
use fault::{Fault, Place};
use schema::Line;
use schema::lines::{file_lines, table_bytes};
use word::kind::Kind;

pub mod part;
pub mod row;

// A member that is not there.
#[tactic(auto, unfolding(fault::specs::Fault::faulty, fault::specs::Fault::least))]
fn absent(place: Place, line: Line) -> Option<Fault>
    ensures { result ≡ least (faulty place line.field (absence_of line.need)) }
{
    if line.need == Line::REQUIRED {
        place.broken(line.field, Kind::MISSING)
    } else {
        None
    }
}

// An array of n items.
#[tactic(auto, unfolding(fault::specs::Fault::faulty, fault::specs::Fault::least))]
fn excess(place: Place, line: Line, n: u32) -> Option<Fault>
    ensures { result ≡ least (faulty place line.field (unless (leb n line.most) too_many)) }
{
    if n <= u32::from(line.most) {
        None
    } else {
        place.broken(line.field, Kind::TOO_MANY)
    }
}

// An array's n-th item.
fn item(place: Place, numbering: u8, n: u32) -> Place
    ensures { result ≡ item_place_of numbering n place }
{
    match numbering {
        Line::RECORDS => Place { record: n, ..place },
        Line::SUBS => Place { sub: n, ..place },
        _ => place,
    }
}

// What the value at the front of some bytes breaks first, and where it ends; 0 where none stands there.
#[derive(Clone, Copy, Debug, PartialEq, Eq)]
pub struct Judged {
    pub least: Option<Fault>,
    pub end: usize,
}

// How many objects of the table lie in one another at most.
const LEVELS: u8 = 8;

// The first broken rule of a file of a sheet, of which p is the value; no rule holds for a number that no sheet has.
pub fn judge_file(p: &[u8], sheet: u8) -> Option<Fault>
    requires { length p.now ≤ file_bytes }
    ensures { (x : Json) → Whole p.now x → result ≡ least (file_faults (sheet_shape sheet) x) }
{
    let lines = file_lines(sheet);
    if lines.count == 0 {
        return None;
    }
    let top = Place { record: 0, sub: 0 };
    let table = table_bytes();
    judge_object(p, &table, lines.first, lines.count, 0, top, LEVELS).least
}
