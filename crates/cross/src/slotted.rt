// The values of a record by its slots.
ghost use Rattle.std.specs.Prelude.{◌≤◌, length};
ghost use Rattle.cross.specs.inner.Judged.{Reads};

use document::fields::value_at;
use slots::Slots;

// What the record `p` holds at a row.
pub fn value_in<'a>(p: &'a [u8], slots: &Slots, row: usize) -> &'a [u8]
    ensures { Reads p.now slots.now row result.now × (length result.now ≤ length p.now) }
{
    value_at(p, slots.at(row))
}
