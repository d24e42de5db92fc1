// The columns of notes, and one entry more.
ghost use Rattle.std.specs.Prelude.{◌≡◌, ◌+◌, ◌*◌, ◌≤◌, ◌<◌, eqb, drop, get_or};
ghost use Rattle.limits.specs.Ceilings.{records, file_bytes};
ghost use Rattle.ids.specs.inner.Notes.{start_at, member_start, pass_at, count_in, skip_in, bit, entered};

use crate::Notes;
use walk::cut;

// The key of the id at the place `i` of the order.
pub fn key_at(notes: &[u32; Notes::SIZE], i: usize) -> u32
    requires { i < records }
    ensures { result ≡ get_or notes.now i 0 }
{
    notes[i]
}

// Where the record at a place starts.
pub fn start_at(notes: &[u32; Notes::SIZE], i: usize) -> usize
    requires { i < records }
    ensures { result ≡ start_at notes.now i }
{
    notes[Notes::STARTS + i] as usize
}

// What stands in `p` from the record at a place on.
pub fn record_from<'a>(p: &'a [u8], notes: &[u32; Notes::SIZE], i: usize) -> &'a [u8]
    requires { i < records }
    ensures { result.now ≡ drop (start_at notes.now i) p.now }
{
    cut(p, start_at(notes, i), p.len())
}

// Where in the record at a place the member of its id is looked for.
pub fn member_at(notes: &[u32; Notes::SIZE], i: usize) -> usize
    requires { i < records }
    ensures { result ≡ member_start notes.now i }
{
    (notes[Notes::MEMBERS + i] / 2) as usize
}

// Whether the record at a place is noted to pass.
pub fn is_passed(notes: &[u32; Notes::SIZE], i: usize) -> bool
    requires { i < records }
    ensures { result ≡ eqb (pass_at notes.now i) 1 }
{
    notes[Notes::MEMBERS + i] % 2 == 1
}

// How many records are noted.
pub fn count(notes: &[u32; Notes::SIZE]) -> usize
    ensures { result ≡ count_in notes.now }
{
    notes[Notes::COUNT] as usize
}

// How many bytes all ids begin with alike.
pub fn skip(notes: &[u32; Notes::SIZE]) -> usize
    ensures { result ≡ skip_in notes.now }
{
    notes[Notes::SKIP] as usize
}

// A place and a truth as they are noted.
fn doubled(member: usize, passes: bool) -> u32
    requires { member ≤ file_bytes }
    ensures { result ≡ 2 * member + bit passes }
{
    2 * member as u32 + u32::from(passes)
}

// One entry more.
pub fn enter(
    notes: &mut [u32; Notes::SIZE],
    k: usize,
    place: usize,
    from: usize,
    member: usize,
    passes: bool,
)
    requires { (k < records) × (place ≤ file_bytes) × (from ≤ file_bytes) × (member ≤ file_bytes) }
    ensures { notes.new ≡ entered notes.old k place from member (bit passes) }
{
    let mark = doubled(member, passes);
    notes[k] = place as u32;
    notes[Notes::STARTS + k] = from as u32;
    notes[Notes::MEMBERS + k] = mark;
}
