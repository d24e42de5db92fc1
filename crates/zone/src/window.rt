// When a zone counts.
ghost use Rattle.std.specs.Prelude.{◌≡◌};
ghost use Rattle.walk.specs.Part.{Whole, part_tree};
ghost use Rattle.document.specs.inner.Values.{spelled_by};
ghost use Rattle.zone.specs.Zone.{integer, begun as begunAt, unended as unendedAt};
ghost use Rattle.zone.specs.inner.Values.{counts_by};

use document::fields::{NUMBER, code_of, integer_in, member};

// The start is not after the moment, or there is none.
fn begun(q: &[u8], moment: u64) -> bool
    ensures { result ≡ begunAt (integer (spelled_by q.now)) moment }
{
    if code_of(q) != NUMBER {
        return true;
    }
    integer_in(q) <= moment
}

// The end is after the moment, or there is none.
fn unended(q: &[u8], moment: u64) -> bool
    ensures { result ≡ unendedAt (integer (spelled_by q.now)) moment }
{
    if code_of(q) != NUMBER {
        return true;
    }
    moment < integer_in(q)
}

// Whether a zone of the properties `p` counts at a moment.
pub fn counts(p: &[u8], moment: u64) -> bool
    requires { Whole p.now (part_tree p.now) }
    ensures { result ≡ counts_by p.now moment }
{
    if !begun(member(p, b"start"), moment) {
        return false;
    }
    unended(member(p, b"end"), moment)
}
